// Why the names of a document get no numbers.
ghost use Rattle.std.specs.Prelude.{◌≡◌};
ghost use Rattle.xml_numbers.specs.declared.number_error.NumberError.TheVariants.{OutOfMemory};

use std::alloc::AllocError;

/// The first row whose name has no number, and its line; or memory ran out.
#[derive(Clone, Copy, Debug, PartialEq, Eq)]
pub enum NumberError {
    Unlisted { row: usize, line: u32 },
    OutOfMemory,
}

impl From<AllocError> for NumberError {
    ghost from_gives = { λ error number_error. number_error ≡ OutOfMemory };

    fn from(_: AllocError) -> NumberError {
        NumberError::OutOfMemory
    }
}
