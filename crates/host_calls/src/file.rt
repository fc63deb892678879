// The bundle of what a script's calls leave.
ghost use Rattle.calls.specs.Book.{answer};
ghost use Rattle.script_bundle.specs.Filing.{FileMet};

use crate::tell::tell;

/// The number of the answer and its value: the bundle's length, which is written to the buffer's start, or the refused
/// line, or the length needed.
pub fn spinebriar_file(calls: &[u8], out: &mut [u8], value: &mut usize) -> u16
    ensures { FileMet calls.now out.old (answer result value.new)
        out.new }
{
    tell(script_bundle::file(calls, out), value)
}
