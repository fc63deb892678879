// Why rows are no document.
ghost use Rattle.std.specs.Prelude.{◌≡◌};
ghost use Rattle.documents.specs.declared.document_error.DocumentError.TheVariants.{OutOfMemory};

use std::alloc::AllocError;

/// No rows: row 0; 2^32 rows or more: the number of rows that a document may have; else the first bad row. Or memory
/// ran out.
#[derive(Clone, Copy, Debug, PartialEq, Eq)]
pub enum DocumentError {
    BadDocument(u32),
    OutOfMemory,
}

impl From<AllocError> for DocumentError {
    ghost from_gives = { λ error document_error. document_error ≡ OutOfMemory };

    fn from(_: AllocError) -> DocumentError {
        DocumentError::OutOfMemory
    }
}
