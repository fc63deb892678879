// References, and the values of attributes and entities: [9] EntityValue, [10] AttValue, [67] Reference,
// [68] EntityRef, and "Attribute-Value Normalization".
ghost use Rattle.std.specs.Prelude.{◌≡◌, ◌≤◌, ◌<◌, ◌+◌, length, IfOk};

use crate::doctype::Doctype;
use crate::expansion::Expansion;
use xml_text::characters::{byte_at, missing, past_plain_name};
use xml_text::reason::{Reason, Stop};
use xml_text::references::{past_character_reference, push_character};

/// What a reference is to: a character, or an entity by its number.
#[derive(Clone, Copy, Debug, PartialEq, Eq)]
pub enum Reference {
    Character(u32),
    Entity(u32),
}

// The end of the name of the entity that is referred to at `at`, an `&`: the place of the semicolon.
fn entity_name_end(text: &[u8], at: usize) -> Result<usize, Stop>
    requires { at < length text.now }
    ensures { IfOk result (λ e. (at + 1 < e) × (e < length text.now)) }
{
    let end = past_plain_name(text, at + 1)?;
    if end < text.len() && text[end] == b';' {
        Ok(end)
    } else {
        Err(missing(text, end, Reason::SemicolonExpected))
    }
}

// The entities that need no declaration ("Predefined Entities").
fn predefined(name: &[u8]) -> Option<u32> {
    match name {
        b"lt" => Some(0x3C),
        b"gt" => Some(0x3E),
        b"amp" => Some(0x26),
        b"quot" => Some(0x22),
        b"apos" => Some(0x27),
        _ => None,
    }
}

/// The reference at `at`, an `&`, and the place past it.
pub fn read_reference(doctype: &Doctype, text: &[u8], at: usize) -> Result<(Reference, usize), Stop>
    requires { at < length text.now }
    ensures { IfOk result (λ r. (at < r.1) × (r.1 ≤ length text.now)) }
{
    if at + 1 < text.len() && text[at + 1] == b'#' {
        let (c, past) = past_character_reference(text, at)?;
        return Ok((Reference::Character(c), past));
    }
    let end = entity_name_end(text, at)?;
    let name = &text[at + 1..end];
    if let Some(c) = predefined(name) {
        return Ok((Reference::Character(c), end + 1));
    }
    let number = doctype.entity(name, at)?;
    Ok((Reference::Entity(number), end + 1))
}

// Past the line end at `at`, where a carriage return stands.
fn past_return(text: &[u8], at: usize) -> usize
    requires { at < length text.now }
    ensures { (at < result) × (result ≤ length text.now) }
{
    if at + 1 < text.len() && text[at + 1] == b'\n' {
        at + 2
    } else {
        at + 1
    }
}

/// Appends the value of an attribute, with its references replaced, at most `level` entities deep, and each space as
/// one.
pub fn expand(
    doctype: &Doctype,
    expansion: &mut Expansion,
    text: &[u8],
    level: u32,
    out: &mut Vec<u8>,
) -> Result<(), Stop> {
    let mut at = 0;
    while at < text.len() {
        match text[at] {
            b'<' => return Err(Stop::At(at, Reason::LessInValue)),
            b'&' => {
                let (reference, past) = read_reference(doctype, text, at)?;
                match reference {
                    Reference::Character(c) => push_character(out, c)?,
                    Reference::Entity(number) => {
                        if level == 0 {
                            return Err(Stop::At(at, Reason::TooManyOpenEntities));
                        }
                        let inner = doctype.replacement(number);
                        expansion
                            .open(number, inner.len())
                            .map_err(|e| e.moved(at))?;
                        expand(doctype, expansion, inner, level - 1, out).map_err(|e| e.moved(at))?;
                        expansion.close(number);
                    }
                }
                at = past;
            }
            b'\r' => {
                out.push(b' ')?;
                at = past_return(text, at);
            }
            b'\t' | b'\n' => {
                out.push(b' ')?;
                at += 1;
            }
            b => {
                out.push(b)?;
                at += 1;
            }
        }
    }
    Ok(())
}

/// Leaves out the spaces at the ends of a value, and all but the first of those that stand together: what is done to
/// the value of every type but CDATA.
pub fn tokenize(value: &mut Vec<u8>) {
    let mut after_space = true;
    value.retain(|b| {
        let keep = *b != b' ' || !after_space;
        after_space = *b == b' ';
        keep
    });
    if value.as_slice().last() == Some(&b' ') {
        let _ = value.pop();
    }
}

/// Appends the value of an entity, with its character references replaced and its line ends as line feeds.
pub fn entity_value(text: &[u8], out: &mut Vec<u8>) -> Result<(), Stop> {
    let mut at = 0;
    while at < text.len() {
        match text[at] {
            b'%' => return Err(Stop::At(at, Reason::ParameterEntity)),
            b'&' if at + 1 < text.len() && text[at + 1] == b'#' => {
                let (c, past) = past_character_reference(text, at)?;
                push_character(out, c)?;
                at = past;
            }
            b'&' => {
                let end = entity_name_end(text, at)?;
                out.extend_from_slice(&text[at..end + 1])?;
                at = end + 1;
            }
            b'\r' => {
                out.push(b'\n')?;
                at = past_return(text, at);
            }
            b => {
                out.push(b)?;
                at += 1;
            }
        }
    }
    Ok(())
}

/// The end of the attribute's value in the quotes at `at`, the place of the second one, and whether it has a
/// reference.
pub fn value_end(text: &[u8], at: usize) -> Result<(usize, bool), Stop>
    requires { at ≤ length text.now }
    ensures { IfOk result (λ r. (at < r.0) × (r.0 < length text.now)) }
{
    let quote = byte_at(text, at);
    if quote != b'"' && quote != b'\'' || at >= text.len() {
        return Err(missing(text, at, Reason::QuoteExpected));
    }
    let mut has_reference = false;
    for i in at + 1..text.len() {
        let b = text[i];
        // as in `past_text`
        if b > b'<' {
            continue;
        }
        if b == quote {
            return Ok((i, has_reference));
        }
        if b == b'<' {
            return Err(Stop::At(i, Reason::LessInValue));
        }
        if b == b'&' {
            has_reference = true;
        }
    }
    Err(Stop::At(text.len(), Reason::UnexpectedEnd))
}
