// The reading of a bundle.
ghost use Rattle.std.specs.Prelude.{◌≡◌};
ghost use Rattle.calls.specs.Book.{answer};
ghost use Rattle.session.specs.Reading.{reading};

use crate::tell::tell;
use calls::Answer;
use session::Session;

/// The number of the answer to a bundle's bytes.
pub fn spinebriar_read(bytes: &[u8]) -> u16
    ensures { result ≡ (reading bytes.now).answer.number }
{
    let mut session = Session::new();
    session.read(bytes).number()
}

/// The same, with the answer's value: the number of steps held, or the refused line. Two functions, as C has both
/// names.
pub fn spinebriar_read_line(bytes: &[u8], value: &mut usize) -> u16
    ensures { answer result value.new ≡ (reading bytes.now).answer }
{
    let mut session = Session::new();
    tell(session.read(bytes), value)
}
