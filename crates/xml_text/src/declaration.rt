// The XML declaration: [23] XMLDecl, [24] VersionInfo, [25] Eq, [26] VersionNum, [32] SDDecl, [80] EncodingDecl,
// [81] EncName.
ghost use Rattle.std.specs.Prelude.{◌≡◌, ◌≤◌, ◌<◌, ◌+◌, length, IfOk, IfSome};

use crate::characters::{byte_at, expect, is_space, missing, past_spaces, stands};
use crate::reason::{Reason, Stop};

/// What an XML declaration says: where it ends, 0 for none, where the name of the encoding begins and ends, if it has
/// one, and whether the document stands alone.
#[derive(Clone, Copy, Debug, PartialEq, Eq)]
pub struct Declaration {
    pub end: usize,
    pub encoding: Option<(usize, usize)>,
    pub is_standalone: bool,
}

/// Past an `=` and the spaces around it: [25] Eq.
pub fn past_equals(text: &[u8], at: usize) -> Result<usize, Stop>
    requires { at ≤ length text.now }
    ensures { IfOk result (λ e. (at < e) × (e ≤ length text.now)) }
{
    let equals = expect(text, past_spaces(text, at), b"=", Reason::EqualsExpected)?;
    Ok(past_spaces(text, equals))
}

/// The end of what stands in the quotes at `at`: the place of the second one.
pub fn quoted_end(text: &[u8], at: usize) -> Result<usize, Stop>
    requires { at ≤ length text.now }
    ensures { IfOk result (λ e. (at < e) × (e < length text.now)) }
{
    let quote = byte_at(text, at);
    if quote != b'"' && quote != b'\'' || at >= text.len() {
        return Err(missing(text, at, Reason::QuoteExpected));
    }
    for i in at + 1..text.len() {
        if text[i] == quote {
            return Ok(i);
        }
    }
    Err(Stop::At(text.len(), Reason::UnexpectedEnd))
}

// [26] VersionNum.
fn is_version(value: &[u8]) -> bool {
    match value {
        [b'1', b'.', _, ..] => value.iter().skip(2).all(|b| b.is_ascii_digit()),
        _ => false,
    }
}

// [81] EncName.
fn is_encoding_name(value: &[u8]) -> bool {
    match value.first() {
        Some(first) => {
            first.is_ascii_alphabetic()
                && value.iter().all(|b| b.is_ascii_alphanumeric()
                    || *b == b'.'
                    || *b == b'_'
                    || *b == b'-')
        }
        None => false,
    }
}

// Whether a document stands alone, by the value between the quotes.
fn yes_or_no(value: &[u8]) -> Option<bool> {
    match value {
        b"yes" => Some(true),
        b"no" => Some(false),
        _ => None,
    }
}

// Where the value of the word at `at` begins and ends, between its quotes, if that word stands there behind a space,
// which it does where `at` isn't `past`.
fn value_of(
    text: &[u8],
    past: usize,
    at: usize,
    word: &[u8],
) -> Result<Option<(usize, usize)>, Stop>
    requires past { past ≤ at }
    requires at { at ≤ length text.now }
    requires word { length word.now ≤ 16 }
    ensures { IfOk result (λ found. IfSome found (λ v. (at < v.0) × (v.0 ≤ v.1) × (v.1 < length text.now))) }
{
    if past == at || !stands(text, at, word) {
        return Ok(None);
    }
    let value = past_equals(text, expect(text, at, word, Reason::BadDeclaration)?)?;
    let end = quoted_end(text, value)?;
    Ok(Some((value + 1, end)))
}

/// The XML declaration at the start of a text.
pub fn read_declaration(text: &[u8]) -> Result<Declaration, Stop>
    ensures { IfOk result (λ d. d.end ≤ length text.now) }
{
    if text.len() < 6 || !stands(text, 0, b"<?xml") || !is_space(text[5]) {
        return Ok(Declaration {
            end: 0,
            encoding: None,
            is_standalone: false,
        });
    }
    let first = past_spaces(text, 5);
    let Some((version, version_end)) = value_of(text, 5, first, b"version")? else {
        return Err(missing(text, first, Reason::BadDeclaration));
    };
    if !is_version(&text[version..version_end]) {
        return Err(Stop::At(version, Reason::BadDeclaration));
    }
    let mut past = version_end + 1;
    let mut next = past_spaces(text, past);
    let encoding = value_of(text, past, next, b"encoding")?;
    if let Some((name, name_end)) = encoding {
        if !is_encoding_name(&text[name..name_end]) {
            return Err(Stop::At(name, Reason::BadDeclaration));
        }
        past = name_end + 1;
        next = past_spaces(text, past);
    }
    let mut is_standalone = false;
    if let Some((standalone, standalone_end)) = value_of(text, past, next, b"standalone")? {
        let Some(value) = yes_or_no(&text[standalone..standalone_end]) else {
            return Err(Stop::At(standalone, Reason::BadDeclaration));
        };
        is_standalone = value;
        next = past_spaces(text, standalone_end + 1);
    }
    let end = expect(text, next, b"?>", Reason::BadDeclaration)?;
    Ok(Declaration {
        end,
        encoding,
        is_standalone,
    })
}
