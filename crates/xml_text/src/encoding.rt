// The encoding of a document, by its first bytes and by its declaration ("Autodetection of Character Encodings"), and
// its text as UTF-8.
use crate::declaration::read_declaration;
use crate::reason::{Reason, Stop};
use crate::references::push_character;
use std::alloc::Global;

#[derive(Clone, Copy, Debug, PartialEq, Eq)]
pub enum Encoding {
    Utf8,
    Utf16LittleEndian,
    Utf16BigEndian,
    Latin1,
    Windows1252,
    Ascii,
}

/// What the first bytes say.
#[derive(Clone, Copy, Debug, PartialEq, Eq)]
pub enum Detected {
    /// An encoding, as far as they tell it, and the length of the byte order mark: one of one byte a character looks
    /// like UTF-8
    Known(Encoding, usize),
    /// One that is not read, by its name
    Unknown(&'static [u8]),
}

pub fn detect(bytes: &[u8]) -> Detected {
    match bytes {
        [0xFF, 0xFE, 0, 0, ..]
        | [0, 0, 0xFE, 0xFF, ..]
        | [0, 0, 0, 0x3C, ..]
        | [0x3C, 0, 0, 0, ..] => { Detected::Unknown(b"UTF-32") }
        [0x4C, 0x6F, 0xA7, 0x94, ..] => Detected::Unknown(b"EBCDIC"),
        [0xEF, 0xBB, 0xBF, ..] => Detected::Known(Encoding::Utf8, 3),
        [0xFE, 0xFF, ..] => Detected::Known(Encoding::Utf16BigEndian, 2),
        [0xFF, 0xFE, ..] => Detected::Known(Encoding::Utf16LittleEndian, 2),
        [0, 0x3C, ..] => Detected::Known(Encoding::Utf16BigEndian, 0),
        [0x3C, 0, ..] => Detected::Known(Encoding::Utf16LittleEndian, 0),
        _ => Detected::Known(Encoding::Utf8, 0),
    }
}

// The encoding of a name; UTF-16 alone has the order of the bytes that was detected.
fn encoding_of(name: &[u8], detected: Encoding) -> Option<Encoding> {
    let is = |word: &[u8]| name.eq_ignore_ascii_case(word);
    if is(b"UTF-8") {
        Some(Encoding::Utf8)
    } else if is(b"US-ASCII") {
        Some(Encoding::Ascii)
    } else if is(b"ISO-8859-1") {
        Some(Encoding::Latin1)
    } else if is(b"WINDOWS-1252") {
        Some(Encoding::Windows1252)
    } else if is(b"UTF-16LE") {
        Some(Encoding::Utf16LittleEndian)
    } else if is(b"UTF-16BE") {
        Some(Encoding::Utf16BigEndian)
    } else if is(b"UTF-16") {
        Some(if detected == Encoding::Utf16LittleEndian {
            detected
        } else {
            Encoding::Utf16BigEndian
        })
    } else {
        None
    }
}

fn is_wide(encoding: Encoding) -> bool {
    encoding == Encoding::Utf16LittleEndian || encoding == Encoding::Utf16BigEndian
}

/// The encoding that a text declares, which the one detected must allow. Where it declares none it is UTF-8, or UTF-16
/// behind a mark. `text` is in UTF-8 or has one byte a character, at least as far as the declaration.
pub fn declared(text: &[u8], detected: Encoding, has_mark: bool) -> Result<Encoding, Stop> {
    let declaration = read_declaration(text)?;
    let Some((start, end)) = declaration.encoding else {
        return if detected == Encoding::Utf8 || has_mark {
            Ok(detected)
        } else {
            Err(Stop::At(0, Reason::EncodingMismatch))
        };
    };
    let Some(encoding) = encoding_of(text.get(start..end).unwrap_or(b""), detected) else {
        return Err(Stop::At(start, Reason::UnknownEncoding));
    };
    let is_allowed = if detected == Encoding::Utf8 && !has_mark {
        !is_wide(encoding)
    } else {
        encoding == detected
    };
    if is_allowed {
        Ok(encoding)
    } else {
        Err(Stop::At(start, Reason::EncodingMismatch))
    }
}

/// A text as UTF-8, up to the first bytes that are no character of its encoding, and whether there are such.
#[derive(Debug, Drop)]
pub struct Decoded {
    pub text: Vec<u8>,
    pub is_cut: bool,
}

/// The text of UTF-16.
pub fn decode_wide(alloc: Global, bytes: &[u8], is_big_endian: bool) -> Result<Decoded, Stop> {
    let mut text = Vec::new(alloc);
    let mut high = 0u32;
    for pair in bytes.chunks_exact(2) {
        let unit = match pair {
            [a, b] if is_big_endian => u32::from(*a) << 8 | u32::from(*b),
            [a, b] => u32::from(*b) << 8 | u32::from(*a),
            _ => 0,
        };
        if high != 0 {
            if unit & 0xFC00 != 0xDC00 {
                return Ok(Decoded { text, is_cut: true });
            }
            let pair = (high & 0x3FF) << 10 | unit & 0x3FF;
            push_character(&mut text, pair.wrapping_add(0x10000))?;
            high = 0;
        } else if unit & 0xFC00 == 0xD800 {
            high = unit;
        } else if unit & 0xFC00 == 0xDC00 {
            return Ok(Decoded { text, is_cut: true });
        } else {
            push_character(&mut text, unit)?;
        }
    }
    let is_cut = high != 0 || bytes.len() % 2 != 0;
    Ok(Decoded { text, is_cut })
}

// The characters of 0x80 to 0x9F in windows-1252; 0 for none.
static WINDOWS_1252: [u16; 32] = [
    0x20AC, 0, 0x201A, 0x0192, 0x201E, 0x2026, 0x2020, 0x2021, 0x02C6, 0x2030, 0x0160, 0x2039,
    0x0152, 0, 0x017D, 0, 0, 0x2018, 0x2019, 0x201C, 0x201D, 0x2022, 0x2013, 0x2014, 0x02DC,
    0x2122, 0x0161, 0x203A, 0x0153, 0, 0x017E, 0x0178,
];

// The character of a byte, if it has one.
fn narrow_character(byte: u8, encoding: Encoding) -> Option<u32> {
    if byte < 0x80 {
        return Some(u32::from(byte));
    }
    match encoding {
        Encoding::Latin1 => Some(u32::from(byte)),
        Encoding::Windows1252 if byte < 0xA0 => {
            match WINDOWS_1252[(byte - 0x80) as usize] {
                0 => None,
                character => Some(u32::from(character)),
            }
        }
        Encoding::Windows1252 => Some(u32::from(byte)),
        _ => None,
    }
}

/// The text of an encoding of one byte a character.
pub fn decode_narrow(alloc: Global, bytes: &[u8], encoding: Encoding) -> Result<Decoded, Stop> {
    let mut text = Vec::new(alloc);
    for byte in bytes {
        let Some(character) = narrow_character(*byte, encoding) else {
            return Ok(Decoded { text, is_cut: true });
        };
        push_character(&mut text, character)?;
    }
    Ok(Decoded {
        text,
        is_cut: false,
    })
}
