// Characters, spaces and names: [2] Char, [3] S, [4] NameStartChar, [4a] NameChar, [5] Name, and of Namespaces in XML
// [4] NCName and [7] QName. The text is UTF-8 of XML's characters alone.
ghost use Rattle.std.specs.Prelude.{◌≡◌, ◌≤◌, ◌<◌, ◌+◌, length, IfOk};

use crate::reason::{Reason, Stop};

/// [3] S.
pub fn is_space(b: u8) -> bool {
    b == b' ' || b == b'\t' || b == b'\r' || b == b'\n'
}

/// [2] Char.
pub fn is_character(c: u32) -> bool {
    matches!(c, 0x9 | 0xA | 0xD | 0x20..=0xD7FF | 0xE000..=0xFFFD | 0x10000..=0x10FFFF)
}

// [4] NameStartChar.
fn is_name_start(c: u32) -> bool {
    matches!(
        c,
        0x3A | 0x41..=0x5A | 0x5F | 0x61..=0x7A | 0xC0..=0xD6 | 0xD8..=0xF6 | 0xF8..=0x2FF | 0x370..=0x37D | 0x37F..=0x1FFF
            | 0x200C..=0x200D | 0x2070..=0x218F | 0x2C00..=0x2FEF | 0x3001..=0xD7FF | 0xF900..=0xFDCF | 0xFDF0..=0xFFFD
            | 0x10000..=0xEFFFF
    )
}

// [4a] NameChar.
fn is_name_character(c: u32) -> bool {
    is_name_start(c)
        || matches!(c, 0x2D | 0x2E | 0x30..=0x39 | 0xB7 | 0x300..=0x36F | 0x203F..=0x2040)
}

// Those of one byte, letters, digits and `_-.:`, by their bits: a name is read in two thirds of the time that ranges
// take.
static NAME_BYTES: [u64; 2] = [0x07FF_6000_0000_0000, 0x07FF_FFFE_87FF_FFFE];

fn is_name_byte(b: u8) -> bool {
    b < 0x80 && NAME_BYTES[(b / 64) as usize] >> (b % 64) & 1 == 1
}

/// The byte at a place; 0 at the end, which no XML text has.
pub fn byte_at(text: &[u8], at: usize) -> u8 {
    match text.get(at) {
        Some(b) => *b,
        None => 0,
    }
}

/// Whether a mark stands at a place.
pub fn stands(text: &[u8], at: usize, mark: &[u8]) -> bool
    requires { at ≤ length text.now }
{
    text[at..].starts_with(mark)
}

/// Past the spaces from `at` on.
pub fn past_spaces(text: &[u8], at: usize) -> usize
    requires { at ≤ length text.now }
    ensures { (at ≤ result) × (result ≤ length text.now) }
{
    let mut i = at;
    while i < text.len() && is_space(text[i]) {
        i += 1;
    }
    i
}

/// Past at least one space.
pub fn past_some_spaces(text: &[u8], at: usize) -> Result<usize, Stop>
    requires { at ≤ length text.now }
    ensures { IfOk result (λ e. (at < e) × (e ≤ length text.now)) }
{
    let past = past_spaces(text, at);
    if past == at {
        return Err(missing(text, at, Reason::SpaceExpected));
    }
    Ok(past)
}

/// What stops a reader that doesn't find at `at` what must stand there: the text's end comes first.
pub fn missing(text: &[u8], at: usize, reason: Reason) -> Stop {
    if at < text.len() {
        Stop::At(at, reason)
    } else {
        Stop::At(at, Reason::UnexpectedEnd)
    }
}

/// Past the mark that stands at `at`.
pub fn expect(text: &[u8], at: usize, mark: &[u8], reason: Reason) -> Result<usize, Stop>
    requires at { at ≤ length text.now }
    requires mark { length mark.now ≤ 16 }
    ensures { IfOk result (λ e. (e ≡ at + length mark.now) × (e ≤ length text.now)) }
{
    if stands(text, at, mark) && mark.len() <= text.len() - at {
        Ok(at + mark.len())
    } else {
        Err(missing(text, at, reason))
    }
}

/// Where a mark stands next, from `at` on.
pub fn find(text: &[u8], at: usize, mark: &[u8]) -> Result<usize, Stop>
    requires { at ≤ length text.now }
    ensures { IfOk result (λ e. (at ≤ e) × (e < length text.now)) }
{
    let first = byte_at(mark, 0);
    for i in at..text.len() {
        if text[i] == first && stands(text, i, mark) {
            return Ok(i);
        }
    }
    Err(Stop::At(text.len(), Reason::UnexpectedEnd))
}

/// The character at a place, and its length in bytes.
pub fn character_at(text: &[u8], at: usize) -> (u32, usize)
    requires { at < length text.now }
    ensures { (1 ≤ result.1) × (at + result.1 ≤ length text.now) }
{
    match &text[at..] {
        [a, b, ..] if *a >= 0xC0 && *a < 0xE0 => (
            (u32::from(*a) & 0x1F) << 6 | u32::from(*b) & 0x3F,
            2,
        ),
        [a, b, c, ..] if *a >= 0xE0 && *a < 0xF0 => {
            (
                (u32::from(*a) & 0xF) << 12 | (u32::from(*b) & 0x3F) << 6 | u32::from(*c) & 0x3F,
                3,
            )
        }
        [a, b, c, d, ..] if *a >= 0xF0 => {
            let high = (u32::from(*a) & 0x7) << 18 | (u32::from(*b) & 0x3F) << 12;
            (high | (u32::from(*c) & 0x3F) << 6 | u32::from(*d) & 0x3F, 4)
        }
        _ => (u32::from(text[at]), 1),
    }
}

/// Past the characters of names from `at` on.
pub fn past_name_characters(text: &[u8], at: usize) -> usize
    requires { at ≤ length text.now }
    ensures { (at ≤ result) × (result ≤ length text.now) }
{
    let mut i = at;
    while i < text.len() {
        let b = text[i];
        if b < 0x80 {
            if !is_name_byte(b) {
                return i;
            }
            i += 1;
        } else {
            let (c, count) = character_at(text, i);
            if !is_name_character(c) {
                return i;
            }
            i += count;
        }
    }
    i
}

/// Whether a name may start at a place.
pub fn name_starts(text: &[u8], at: usize) -> bool
    requires { at ≤ length text.now }
{
    if at >= text.len() {
        return false;
    }
    match text[at] {
        b'a'..=b'z' | b'A'..=b'Z' | b'_' | b':' => true,
        b if b < 0x80 => false,
        _ => is_name_start(character_at(text, at).0),
    }
}

/// Past the name at `at`: [5] Name.
pub fn past_name(text: &[u8], at: usize) -> Result<usize, Stop>
    requires { at ≤ length text.now }
    ensures { IfOk result (λ e. (at < e) × (e ≤ length text.now)) }
{
    if !name_starts(text, at) {
        return Err(missing(text, at, Reason::NameExpected));
    }
    let past = past_name_characters(text, at);
    if past <= at {
        return Err(Stop::At(at, Reason::NameExpected));
    }
    Ok(past)
}

/// The place of the colon in a name, its length where it has none. A qualified name has at most one, between two names:
/// [7] QName of Namespaces in XML.
pub fn colon_of(name: &[u8]) -> Result<usize, Stop>
    ensures { IfOk result (λ e. e ≤ length name.now) }
{
    let mut colon = name.len();
    for i in 0..name.len() {
        if name[i] == b':' {
            if colon < name.len() || i == 0 || !name_starts(name, i + 1) {
                return Err(Stop::At(i, Reason::BadQualifiedName));
            }
            colon = i;
        }
    }
    Ok(colon)
}

/// Past the qualified name at `at`.
pub fn past_qualified_name(text: &[u8], at: usize) -> Result<usize, Stop>
    requires { at ≤ length text.now }
    ensures { IfOk result (λ e. (at < e) × (e ≤ length text.now)) }
{
    let end = past_name(text, at)?;
    let _ = colon_of(&text[at..end]).map_err(|e| e.after(at))?;
    Ok(end)
}

/// Past the name at `at`, which has no colon: [4] NCName of Namespaces in XML, what entities, notations and the targets
/// of instructions are named by.
pub fn past_plain_name(text: &[u8], at: usize) -> Result<usize, Stop>
    requires { at ≤ length text.now }
    ensures { IfOk result (λ e. (at < e) × (e ≤ length text.now)) }
{
    let end = past_name(text, at)?;
    for i in at..end {
        if text[i] == b':' {
            return Err(Stop::At(i, Reason::BadQualifiedName));
        }
    }
    Ok(end)
}

// Whether a byte is no character, or begins one that may be none.
fn is_suspect(b: u8) -> bool {
    (b < 0x20) & (b != b'\t') & (b != b'\n') & (b != b'\r') | (b == 0xEF)
}

// The first place of a character that XML doesn't have, from `from` on and before `end`.
fn forbidden_between(text: &[u8], from: usize, end: usize) -> Option<usize>
    requires { end ≤ length text.now }
{
    for i in from..end {
        let b = text[i];
        if b < 0x20 {
            if !is_space(b) {
                return Some(i);
            }
        } else if b == 0xEF
            && byte_at(text, i.saturating_add(1)) == 0xBF
            && byte_at(text, i.saturating_add(2)) >= 0xBE
        {
            return Some(i);
        }
    }
    None
}

/// The first place of a character of UTF-8 that XML doesn't have. The text is looked at by pieces, most of which have
/// no suspect byte.
pub fn forbidden_character(text: &[u8]) -> Option<usize> {
    let mut at = 0usize;
    for piece in text.chunks(64) {
        let end = at.saturating_add(piece.len()).min(text.len());
        let mut has_suspect = false;
        for b in piece {
            has_suspect |= is_suspect(*b);
        }
        if has_suspect {
            if let Some(place) = forbidden_between(text, at, end) {
                return Some(place);
            }
        }
        at = end;
    }
    None
}
