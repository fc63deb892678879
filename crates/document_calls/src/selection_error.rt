// Why no nodes are marked.
ghost use Rattle.std.specs.Prelude.{◌≡◌};
ghost use Rattle.document_calls.specs.declared.selection_error.SelectionError.TheVariants.{Refused, OutOfMemory};

use common::Refusal;
use std::alloc::AllocError;

/// A refusal, or memory ran out.
#[derive(Clone, Copy, Debug, PartialEq, Eq)]
pub enum SelectionError {
    Refused(Refusal),
    OutOfMemory,
}

impl From<AllocError> for SelectionError {
    ghost from_gives = { λ error selection_error. selection_error ≡ OutOfMemory };

    fn from(_: AllocError) -> SelectionError {
        SelectionError::OutOfMemory
    }
}

impl From<Refusal> for SelectionError {
    ghost from_gives = { λ refusal selection_error. selection_error ≡ Refused refusal };

    fn from(refusal: Refusal) -> SelectionError {
        SelectionError::Refused(refusal)
    }
}
