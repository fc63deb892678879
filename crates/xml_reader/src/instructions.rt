// Comments and processing instructions: [15] Comment, [16] PI, [17] PITarget.
ghost use Rattle.std.specs.Prelude.{◌≡◌, ◌≤◌, ◌<◌, ◌+◌, length, IfOk};

use xml_text::characters::{expect, find, is_space, past_plain_name};
use xml_text::reason::{Reason, Stop};

/// Past the comment at `at`.
pub fn past_comment(text: &[u8], at: usize) -> Result<usize, Stop>
    requires { at ≤ length text.now }
    ensures { IfOk result (λ e. (at < e) × (e ≤ length text.now)) }
{
    let close = find(
        text,
        expect(text, at, b"<!--", Reason::UnknownMarkup)?,
        b"--",
    )?;
    expect(text, close, b"-->", Reason::BadComment)
}

/// Where the target of the instruction at `at` ends, and the place past the instruction.
pub fn past_instruction(text: &[u8], at: usize) -> Result<(usize, usize), Stop>
    requires { at ≤ length text.now }
    ensures { IfOk result (λ r. (at + 2 ≤ r.0) × (r.0 < r.1) × (r.1 ≤ length text.now)) }
{
    let target = expect(text, at, b"<?", Reason::UnknownMarkup)?;
    let end = past_plain_name(text, target)?;
    if text[target..end].eq_ignore_ascii_case(b"xml") {
        return Err(Stop::At(target, Reason::ReservedTarget));
    }
    let close = if end < text.len() && is_space(text[end]) {
        find(text, end, b"?>")?
    } else {
        end
    };
    let past = expect(text, close, b"?>", Reason::SpaceExpected)?;
    Ok((end, past))
}
