// Content models: [45] elementdecl, [46] contentspec, [47] children, [48] cp, [49] choice, [50] seq, [51] Mixed.
ghost use Rattle.std.specs.Prelude.{◌≡◌, ◌≤◌, ◌<◌, ◌+◌, length, IfOk};

use crate::limits::MAX_OPEN_GROUPS;
use std::alloc::Global;
use xml_text::characters::{expect, past_qualified_name, past_some_spaces, past_spaces, stands};
use xml_text::reason::{Reason, Stop};

/// What stands between the parts of an open group.
#[derive(Clone, Copy, Debug, PartialEq, Eq)]
enum Separator {
    /// Nothing yet: the group has one part
    Unknown,
    Comma,
    Bar,
}

// Past the sign at `at` that says how often, if one stands there.
fn past_count(text: &[u8], at: usize) -> usize
    requires { at ≤ length text.now }
    ensures { (at ≤ result) × (result ≤ length text.now) }
{
    if at < text.len() && matches!(text[at], b'?' | b'*' | b'+') {
        at + 1
    } else {
        at
    }
}

// Past the rest of a mixed content model, behind its `#PCDATA`: [51] Mixed.
fn past_mixed(text: &[u8], at: usize) -> Result<usize, Stop>
    requires { at ≤ length text.now }
    ensures { IfOk result (λ e. (at < e) × (e ≤ length text.now)) }
{
    let mut i = past_spaces(text, at);
    let mut has_names = false;
    while i < text.len() && text[i] == b'|' {
        let name = past_spaces(text, i + 1);
        i = past_spaces(text, past_qualified_name(text, name)?);
        has_names = true;
    }
    let close = expect(text, i, b")", Reason::BadContentModel)?;
    if has_names {
        return expect(text, close, b"*", Reason::BadContentModel);
    }
    Ok(if close < text.len() && text[close] == b'*' {
        close + 1
    } else {
        close
    })
}

// Closes the groups that end at `from` and after it, and reads the sign before the next part: the place past them, and
// whether the last group is closed.
fn past_closes(text: &[u8], from: usize, groups: &mut Vec<Separator>) -> Result<(usize, bool), Stop>
    requires { from ≤ length text.now }
    ensures { IfOk result (λ r. (from < r.0) × (r.0 ≤ length text.now)) }
{
    let mut at = from;
    while at < text.len() {
        let next = past_spaces(text, at);
        if next >= text.len() {
            break;
        }
        let separator = match text[next] {
            b')' => {
                let _ = groups.pop();
                let past = past_count(text, next + 1);
                if groups.is_empty() {
                    return Ok((past, true));
                }
                at = past;
                continue;
            }
            b',' => Separator::Comma,
            b'|' => Separator::Bar,
            _ => return Err(Stop::At(next, Reason::BadContentModel)),
        };
        let before = groups.pop().unwrap_or(separator);
        if before != Separator::Unknown && before != separator {
            return Err(Stop::At(next, Reason::BadContentModel));
        }
        groups.push(separator)?;
        return Ok((next + 1, false));
    }
    Err(Stop::At(text.len(), Reason::UnexpectedEnd))
}

// Past the content model whose first group opens before `from`: [47] children.
fn past_children(alloc: Global, text: &[u8], from: usize) -> Result<usize, Stop>
    requires { from ≤ length text.now }
    ensures { IfOk result (λ e. (from < e) × (e ≤ length text.now)) }
{
    let mut groups = Vec::new(alloc);
    groups.push(Separator::Unknown)?;
    let mut at = from;
    while at < text.len() {
        let part = past_spaces(text, at);
        if part < text.len() && text[part] == b'(' {
            if groups.len() >= MAX_OPEN_GROUPS {
                return Err(Stop::At(part, Reason::TooManyOpenGroups));
            }
            groups.push(Separator::Unknown)?;
            at = part + 1;
            continue;
        }
        let named = past_qualified_name(text, part)?;
        let (next, is_done) = past_closes(text, past_count(text, named), &mut groups)?;
        if is_done {
            return Ok(next);
        }
        at = next;
    }
    Err(Stop::At(at, Reason::UnexpectedEnd))
}

// Past a content model: [46] contentspec.
fn past_model(alloc: Global, text: &[u8], at: usize) -> Result<usize, Stop>
    requires { at ≤ length text.now }
    ensures { IfOk result (λ e. (at < e) × (e ≤ length text.now)) }
{
    if stands(text, at, b"EMPTY") {
        return expect(text, at, b"EMPTY", Reason::BadContentModel);
    }
    if stands(text, at, b"ANY") {
        return expect(text, at, b"ANY", Reason::BadContentModel);
    }
    let first = expect(text, at, b"(", Reason::BadContentModel)?;
    let part = past_spaces(text, first);
    if stands(text, part, b"#PCDATA") {
        past_mixed(
            text,
            expect(text, part, b"#PCDATA", Reason::BadContentModel)?,
        )
    } else {
        past_children(alloc, text, part)
    }
}

/// Past the element declaration whose `<!ELEMENT` ends at `at`: [45] elementdecl.
pub fn past_element(alloc: Global, text: &[u8], at: usize) -> Result<usize, Stop>
    requires { at ≤ length text.now }
    ensures { IfOk result (λ e. (at < e) × (e ≤ length text.now)) }
{
    let name = past_some_spaces(text, at)?;
    let model = past_some_spaces(text, past_qualified_name(text, name)?)?;
    let end = past_model(alloc, text, model)?;
    expect(text, past_spaces(text, end), b">", Reason::BadContentModel)
}
