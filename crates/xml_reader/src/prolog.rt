// Documents: [1] document, [22] prolog, [27] Misc.
ghost use Rattle.std.specs.Prelude.{◌≡◌, ◌≤◌, ◌<◌, ◌+◌, length, IfOk};

use crate::content::Reader;
use crate::limits::MAX_BYTES;
use std::alloc::{AllocError, Global};
use thiserror::Error;
use xml_document::Document;
use xml_text::characters::{byte_at, forbidden_character, past_spaces, stands};
use xml_text::declaration::read_declaration;
use xml_text::encoding::{
    Decoded, Detected, Encoding, declared, decode_narrow, decode_wide, detect,
};
use xml_text::position::{Position, position_of};
use xml_text::reason::{Reason, Stop};

/// Why a document is refused.
#[derive(Debug, Drop, Error)]
pub enum ReadError {
    /// Where, in the document's characters without the byte order mark, and why
    #[error("{line}:{column}: {reason}")]
    Malformed {
        line: u32,
        column: u32,
        reason: Reason,
    },
    /// The name of an encoding that is not read, as the document declares it or as its first bytes tell it
    #[error("the encoding {0} is not one that is read")]
    UnknownEncoding(String),
    #[error(transparent)]
    Memory(#[from(alloc)] AllocError),
}

// A part of a document's prolog or of what follows its element.
#[derive(Clone, Copy, Debug)]
enum Part {
    Doctype,
    Comment,
    Instruction,
    Element,
}

// What begins at `at`: [27] Misc, a document type or an element.
fn part_at(text: &[u8], at: usize) -> Result<Part, Stop>
    requires { at < length text.now }
{
    if text[at] != b'<' {
        Err(Stop::At(at, Reason::TextOutsideRoot))
    } else if stands(text, at, b"<!DOCTYPE") {
        Ok(Part::Doctype)
    } else if byte_at(text, at + 1) == b'!' {
        Ok(Part::Comment)
    } else if byte_at(text, at + 1) == b'?' {
        Ok(Part::Instruction)
    } else {
        Ok(Part::Element)
    }
}

// What a document may still have.
#[derive(Debug, Drop)]
struct Prolog {
    has_doctype: bool,
    has_element: bool,
}

impl Prolog {
    // Reads a part at `at`; the place past it.
    fn read_part(
        &mut self,
        alloc: Global,
        reader: &mut Reader,
        text: &[u8],
        at: usize,
    ) -> Result<usize, Stop>
        requires { at < length text.now }
        ensures { IfOk result (λ e. (at < e) × (e ≤ length text.now)) }
    {
        match part_at(text, at)? {
            Part::Doctype if self.has_doctype || self.has_element => Err(Stop::At(
                at,
                Reason::MisplacedDoctype,
            )),
            Part::Doctype => {
                self.has_doctype = true;
                reader.declarations.read_doctype(alloc, text, at)
            }
            Part::Comment => reader.read_comment(text, at),
            Part::Instruction => reader.read_instruction(text, at),
            Part::Element if self.has_element => Err(Stop::At(at, Reason::SecondRoot)),
            Part::Element => {
                self.has_element = true;
                let doctype = reader.take_doctype(alloc);
                let past = reader.read_element(&doctype, text, at)?;
                if past <= at {
                    return Err(Stop::At(at, Reason::UnknownMarkup));
                }
                Ok(past)
            }
        }
    }
}

// Reads a document's text, in UTF-8 of XML's characters alone: [1] document.
fn read_text(alloc: Global, text: &[u8]) -> Result<Document, Stop> {
    let declaration = read_declaration(text)?;
    let mut reader = Reader::new(alloc, text.len(), declaration.is_standalone)?;
    let mut prolog = Prolog {
        has_doctype: false,
        has_element: false,
    };
    let mut at = past_spaces(text, declaration.end);
    while at < text.len() {
        reader.reach(text, at);
        let past = prolog.read_part(alloc, &mut reader, text, at)?;
        at = past_spaces(text, past);
    }
    if !prolog.has_element {
        return Err(Stop::At(at, Reason::NoRoot));
    }
    reader.reach(text, text.len());
    let line_count = reader.line();
    let (rows, names, namespaces) = reader.finish();
    let document = Document::new(rows, names, namespaces, line_count);
    match document {
        Some(document) => Ok(document),
        None => Err(Stop::At(text.len(), Reason::NoDocument)),
    }
}

// What stops a reader of the part before `end`, where there is a reason to stop at `end`.
fn earlier(stop: Stop, end: usize, reason: Option<Reason>) -> Stop {
    match (stop, reason) {
        (Stop::At(place, _), Some(reason)) if place >= end => Stop::At(end, reason),
        _ => stop,
    }
}

// Reads a text of which the part before `cut` can be read, if there is a cut: what stops the reader there comes first.
fn read_part(alloc: Global, text: &[u8], cut: Option<Reason>) -> Result<Document, Stop> {
    let (end, reason) = match forbidden_character(text) {
        Some(place) => (place, Some(Reason::ForbiddenCharacter)),
        None => (text.len(), cut),
    };
    let part = text.get(..end).unwrap_or(text);
    match read_text(alloc, part) {
        Ok(document) => match reason {
            Some(reason) => Err(Stop::At(end, reason)),
            None => Ok(document),
        },
        Err(stop) => Err(earlier(stop, end, reason)),
    }
}

fn cut_of(is_cut: bool) -> Option<Reason> {
    if is_cut {
        Some(Reason::MalformedBytes)
    } else {
        None
    }
}

// The error of what stops a reader of a text; an encoding that is not known is named.
fn error_of(alloc: Global, text: &[u8], stop: Stop) -> ReadError {
    let Stop::At(place, reason) = stop else {
        return ReadError::Memory(AllocError);
    };
    if reason == Reason::UnknownEncoding {
        return match encoding_name(text) {
            Some(name) => unknown_encoding(alloc, name),
            None => unknown_encoding(alloc, b""),
        };
    }
    let Position { line, column } = position_of(text, place);
    ReadError::Malformed {
        line,
        column,
        reason,
    }
}

fn encoding_name(text: &[u8]) -> Option<&[u8]> {
    let declaration = read_declaration(text).ok()?;
    let (start, end) = declaration.encoding?;
    text.get(start..end)
}

fn unknown_encoding(alloc: Global, name: &[u8]) -> ReadError {
    match String::from_utf8_lossy(alloc, name) {
        Ok(name) => ReadError::UnknownEncoding(name),
        Err(_) => ReadError::Memory(AllocError),
    }
}

// Reads a text as UTF-8.
fn read_utf8(alloc: Global, text: &[u8]) -> Result<Document, Stop> {
    match simdutf8::compat::from_utf8(text) {
        Ok(_) => read_part(alloc, text, None),
        Err(error) => {
            let part = text.get(..error.valid_up_to()).unwrap_or(text);
            read_part(alloc, part, Some(Reason::MalformedBytes))
        }
    }
}

// Reads a text that was decoded.
fn read_decoded(alloc: Global, decoded: &Decoded) -> Result<Document, ReadError> {
    let text = decoded.text.as_slice();
    read_part(alloc, text, cut_of(decoded.is_cut)).map_err(|e| error_of(alloc, text, e))
}

// Reads UTF-16.
fn read_wide(
    alloc: Global,
    bytes: &[u8],
    encoding: Encoding,
    has_mark: bool,
) -> Result<Document, ReadError> {
    let is_big_endian = encoding == Encoding::Utf16BigEndian;
    let decoded = decode_wide(alloc, bytes, is_big_endian).map_err(|e| error_of(alloc, bytes, e))?;
    let text = decoded.text.as_slice();
    let _ = declared(text, encoding, has_mark).map_err(|e| error_of(alloc, text, e))?;
    read_decoded(alloc, &decoded)
}

/// Reads a document.
pub fn read(alloc: Global, bytes: &[u8]) -> Result<Document, ReadError> {
    if bytes.len() > MAX_BYTES {
        return Err(error_of(alloc, b"", Stop::At(0, Reason::TooLarge)));
    }
    let (detected, mark) = match detect(bytes) {
        Detected::Known(encoding, mark) => (encoding, mark),
        Detected::Unknown(name) => return Err(unknown_encoding(alloc, name)),
    };
    let rest = bytes.get(mark..).unwrap_or(bytes);
    if detected != Encoding::Utf8 {
        return read_wide(alloc, rest, detected, mark != 0);
    }
    let encoding = declared(rest, detected, mark != 0).map_err(|e| error_of(alloc, rest, e))?;
    if encoding == Encoding::Utf8 {
        return read_utf8(alloc, rest).map_err(|e| error_of(alloc, rest, e));
    }
    let decoded = decode_narrow(alloc, rest, encoding).map_err(|e| error_of(alloc, rest, e))?;
    read_decoded(alloc, &decoded)
}
