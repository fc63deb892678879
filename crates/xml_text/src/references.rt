// Character references, and characters as UTF-8: [66] CharRef.
ghost use Rattle.std.specs.Prelude.{◌≡◌, ◌≤◌, ◌<◌, ◌+◌, length, IfOk};

use crate::characters::{byte_at, is_character, missing};
use crate::reason::{Reason, Stop};

// What a digit counts, in base 10 or 16.
fn digit_value(b: u8, is_hexadecimal: bool) -> Option<u32> {
    match b {
        b'0'..=b'9' => Some(u32::from(b) - 0x30),
        b'a'..=b'f' if is_hexadecimal => Some(u32::from(b) - 0x57),
        b'A'..=b'F' if is_hexadecimal => Some(u32::from(b) - 0x37),
        _ => None,
    }
}

/// The character that the reference at `at`, an `&#`, is to, and the place past it.
pub fn past_character_reference(text: &[u8], at: usize) -> Result<(u32, usize), Stop>
    requires { at + 2 ≤ length text.now }
    ensures { IfOk result (λ r. (at < r.1) × (r.1 ≤ length text.now)) }
{
    let is_hexadecimal = at + 2 < text.len() && text[at + 2] == b'x';
    let first = if is_hexadecimal { at + 3 } else { at + 2 };
    let base = if is_hexadecimal { 16 } else { 10 };
    let mut i = first;
    let mut value = 0u32;
    while i < text.len() {
        let Some(digit) = digit_value(text[i], is_hexadecimal) else {
            break;
        };
        value = value.saturating_mul(base).saturating_add(digit);
        i += 1;
    }
    if i == first || byte_at(text, i) != b';' || i >= text.len() {
        return Err(missing(text, i, Reason::BadCharacterReference));
    }
    if !is_character(value) {
        return Err(Stop::At(at, Reason::ForbiddenReference));
    }
    Ok((value, i + 1))
}

/// Appends a character as UTF-8.
pub fn push_character(out: &mut Vec<u8>, c: u32) -> Result<(), Stop> {
    if c < 0x80 {
        out.push((c & 0x7F) as u8)?;
    } else if c < 0x800 {
        out.push((c >> 6 & 0x1F | 0xC0) as u8)?;
        out.push((c & 0x3F | 0x80) as u8)?;
    } else if c < 0x10000 {
        out.push((c >> 12 & 0xF | 0xE0) as u8)?;
        out.push((c >> 6 & 0x3F | 0x80) as u8)?;
        out.push((c & 0x3F | 0x80) as u8)?;
    } else {
        out.push((c >> 18 & 0x7 | 0xF0) as u8)?;
        out.push((c >> 12 & 0x3F | 0x80) as u8)?;
        out.push((c >> 6 & 0x3F | 0x80) as u8)?;
        out.push((c & 0x3F | 0x80) as u8)?;
    }
    Ok(())
}
