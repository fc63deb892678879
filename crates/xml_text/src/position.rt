// Lines and columns. A line ends with a line feed, a carriage return, or both, as XML reads them ("End-of-Line
// Handling").
ghost use Rattle.std.specs.Prelude.{◌≤◌, length};

use crate::characters::byte_at;

/// A place, by its line and by its character in the line, both from 1. A tab is one character.
#[derive(Clone, Copy, Debug, PartialEq, Eq)]
pub struct Position {
    pub line: u32,
    pub column: u32,
}

// How many lines end between two places of a text that has carriage returns there.
fn mixed_line_ends(text: &[u8], from: usize, to: usize) -> u32
    requires { to ≤ length text.now }
{
    let mut count = 0u32;
    for i in from..to {
        let b = text[i];
        if b == b'\n' || b == b'\r' && byte_at(text, i.saturating_add(1)) != b'\n' {
            count = count.saturating_add(1);
        }
    }
    count
}

/// How many lines end between two places; none where they are no places of the text.
pub fn line_ends(text: &[u8], from: usize, to: usize) -> u32 {
    let Some(piece) = text.get(from..to) else {
        return 0;
    };
    let mut count = 0u32;
    let mut has_return = false;
    for b in piece {
        count = count.wrapping_add(u32::from(*b == b'\n'));
        has_return |= *b == b'\r';
    }
    if has_return && to <= text.len() {
        mixed_line_ends(text, from, to)
    } else {
        count
    }
}

/// The position of a place; past the end, that of the end.
pub fn position_of(text: &[u8], place: usize) -> Position {
    let mut line = 1u32;
    let mut column = 1u32;
    for i in 0..place.min(text.len()) {
        let b = text[i];
        if b == b'\n' || b == b'\r' && byte_at(text, i.saturating_add(1)) != b'\n' {
            line = line.saturating_add(1);
            column = 1;
        } else if b & 0xC0 != 0x80 {
            column = column.saturating_add(1);
        }
    }
    Position { line, column }
}
