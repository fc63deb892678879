// Elements and what they contain: [14] CharData, [18] CDSect, [39] element, [40] STag, [41] Attribute, [42] ETag,
// [43] content, [44] EmptyElemTag.
ghost use Rattle.std.specs.Prelude.{◌≡◌, ◌≤◌, ◌<◌, ◌+◌, length, IfOk};

use crate::declarations::Declarations;
use crate::doctype::Doctype;
use crate::instructions::{past_comment, past_instruction};
use crate::limits::{MAX_DEPTH, MAX_NODES, MAX_OPEN_ENTITIES};
use crate::values::{Reference, expand, read_reference, tokenize, value_end};
use common::node_kind::NodeKind;
use std::alloc::Global;
use std::mem::replace;
use xml_document::{Names, Node, Rows};
use xml_text::characters::{byte_at, expect, find, missing, past_name, past_spaces, stands};
use xml_text::declaration::past_equals;
use xml_text::position::line_ends;
use xml_text::reason::{Reason, Stop};

// The numbers of a node's name: of its local part, and of its namespace; 0 for none.
#[derive(Clone, Copy, Debug, PartialEq, Eq)]
struct NodeName {
    local: u32,
    namespace: u32,
}

const NO_NAME: NodeName = NodeName {
    local: 0,
    namespace: 0,
};

// An element that is open.
#[derive(Clone, Copy, Debug)]
struct Element {
    row: u32,
    tag: u32,
    scope: usize,
}

// An attribute of the tag that is read: the number of its name, where it stands, and in which line.
#[derive(Clone, Copy, Debug)]
struct Attribute {
    number: u32,
    place: usize,
    line: u32,
}

/// What is known while a document is read.
#[derive(Debug, Drop)]
pub struct Reader {
    pub declarations: Declarations,
    rows: Rows,
    stack: Vec<Element>,
    // the row of the innermost element that is open, or of the root
    owner: u32,
    // whether the last node is a text that goes on
    in_text: bool,
    // whether what is read stands for an entity
    in_entity: bool,
    // the line of a place in the document's text, up to which the lines are counted
    line: u32,
    counted: usize,
    tag_count: u32,
    // of the tag that is read, its attributes, and the value of one
    attributes: Vec<Attribute>,
    value: Vec<u8>,
}

// Past the text at `at`, up to markup or a reference: [14] CharData.
fn past_text(text: &[u8], at: usize) -> Result<usize, Stop>
    requires { at < length text.now }
    ensures { IfOk result (λ e. (at < e) × (e ≤ length text.now)) }
{
    for i in at..text.len() {
        let b = text[i];
        // most letters are past all three, and one comparison is enough for them
        if b > b']' {
            continue;
        }
        if b == b'<' || b == b'&' {
            if i == at {
                return Err(Stop::At(at, Reason::UnknownMarkup));
            }
            return Ok(i);
        }
        if b == b']' && stands(text, i, b"]]>") {
            return Err(Stop::At(i, Reason::SectionEndInText));
        }
    }
    Ok(text.len())
}

impl Reader {
    /// For a document of so many bytes, of which the root is there.
    pub fn new(alloc: Global, size: usize, is_standalone: bool) -> Result<Reader, Stop> {
        let mut reader = Reader {
            declarations: Declarations::new(alloc, size, is_standalone)?,
            rows: Rows::new(alloc),
            stack: Vec::new(alloc),
            owner: 0,
            in_text: false,
            in_entity: false,
            line: 1,
            counted: 0,
            tag_count: 0,
            attributes: Vec::new(alloc),
            value: Vec::new(alloc),
        };
        let _ = reader.push(NodeKind::Root, 0, NO_NAME, 1)?;
        Ok(reader)
    }

    /// The rows, and the names and namespaces that they are numbered by.
    pub fn finish(self) -> (Rows, Names, Names) {
        let Reader {
            rows,
            declarations,
            ..
        } = self;
        let Declarations { tags, .. } = declarations;
        let (names, namespaces) = tags.finish();
        (rows, names, namespaces)
    }

    /// What is declared, once nothing more can be: the reader is left with nothing declared.
    pub fn take_doctype(&mut self, alloc: Global) -> Doctype {
        replace(&mut self.declarations.doctype, Doctype::new(alloc))
    }

    /// Counts the lines up to a place of the document's text. What stands for an entity is in the line of the
    /// reference.
    pub fn reach(&mut self, text: &[u8], place: usize) {
        if !self.in_entity {
            self.line = self
                .line
                .saturating_add(line_ends(text, self.counted, place));
            self.counted = place;
        }
    }

    /// The line that was counted up to.
    pub fn line(&self) -> u32 {
        self.line
    }

    // Adds a row; its number.
    fn push(
        &mut self,
        kind: NodeKind,
        parent: u32,
        name: NodeName,
        line: u32,
    ) -> Result<u32, Stop> {
        let row = self.rows.len();
        if row >= MAX_NODES {
            return Err(Stop::At(0, Reason::TooManyNodes));
        }
        let NodeName { local, namespace } = name;
        self.rows.push(Node {
            kind,
            parent,
            name: local,
            namespace,
            line,
        })?;
        Ok(row as u32)
    }

    fn put(&mut self, kind: NodeKind, name: NodeName) -> Result<(), Stop> {
        self.in_text = kind == NodeKind::Text;
        let _ = self.push(kind, self.owner, name, self.line)?;
        Ok(())
    }

    // Puts a text, if none goes on.
    fn put_text(&mut self) -> Result<(), Stop> {
        if self.in_text {
            Ok(())
        } else {
            self.put(NodeKind::Text, NO_NAME)
        }
    }

    /// Reads the comment at `at`.
    pub fn read_comment(&mut self, text: &[u8], at: usize) -> Result<usize, Stop>
        requires { at ≤ length text.now }
        ensures { IfOk result (λ e. (at < e) × (e ≤ length text.now)) }
    {
        let past = past_comment(text, at)?;
        self.put(NodeKind::Comment, NO_NAME)
            .map_err(|e| e.moved(at))?;
        Ok(past)
    }

    /// Reads the instruction at `at`.
    pub fn read_instruction(&mut self, text: &[u8], at: usize) -> Result<usize, Stop>
        requires { at ≤ length text.now }
        ensures { IfOk result (λ e. (at < e) × (e ≤ length text.now)) }
    {
        let (end, past) = past_instruction(text, at)?;
        let local = self.declarations.tags.local_number(&text[at + 2..end])?;
        self.put(
            NodeKind::Instruction,
            NodeName {
                local,
                namespace: 0,
            },
        )
        .map_err(|e| e.moved(at))?;
        Ok(past)
    }

    // Notes an attribute of the tag that is read, or declares the namespace that its value, which is in `value`, is.
    fn add_attribute(&mut self, number: u32, place: usize, line: u32) -> Result<(), Stop> {
        if self.declarations.tags.tag(number).declares {
            self.declarations
                .tags
                .declare(number, self.value.as_slice())
                .map_err(|e| e.moved(place))?;
        } else {
            self.attributes.push(Attribute {
                number,
                place,
                line,
            })?;
        }
        Ok(())
    }

    // Adds the attributes that an element, whose name stands at `place`, has by default.
    fn add_defaults(
        &mut self,
        doctype: &Doctype,
        tag: u32,
        place: usize,
        line: u32,
    ) -> Result<(), Stop> {
        let mut number = self.declarations.tags.tag(tag).first_default;
        for _ in 0..doctype.declared_count() {
            let Some(declared) = doctype.declared(number) else {
                return Ok(());
            };
            if !self
                .declarations
                .tags
                .see(declared.attribute, self.tag_count)
            {
                let default = doctype.default(declared);
                let name = self.declarations.tags.whole_name(declared.attribute);
                self.value.clear();
                self.value.extend_from_slice(default)?;
                let size = default.len().saturating_add(name.len());
                self.declarations
                    .expansion
                    .spend(size)
                    .map_err(|e| e.moved(place))?;
                self.add_attribute(declared.attribute, place, line)?;
            }
            number = declared.next;
        }
        Ok(())
    }

    // The row of an attribute of the element in a row.
    fn put_attribute(&mut self, row: u32, attribute: Attribute) -> Result<(), Stop> {
        let tag = self.declarations.tags.tag(attribute.number);
        let namespace = if tag.prefix == 0 {
            0
        } else {
            self.declarations.tags.namespace_of(tag.prefix)?
        };
        if namespace != 0
            && self
                .declarations
                .tags
                .see_pair(namespace, tag.local, self.tag_count)?
        {
            return Err(Stop::At(0, Reason::DuplicateAttribute));
        }
        let name = NodeName {
            local: tag.local,
            namespace,
        };
        let _ = self.push(NodeKind::Attribute, row, name, attribute.line)?;
        Ok(())
    }

    // The rows of a tag whose attributes have been read; the element's row.
    fn put_element(&mut self, number: u32, place: usize, line: u32) -> Result<u32, Stop> {
        let tag = self.declarations.tags.tag(number);
        if tag.declares && tag.prefix != 0 {
            return Err(Stop::At(place, Reason::ReservedPrefix));
        }
        let namespace = self
            .declarations
            .tags
            .namespace_of(tag.prefix)
            .map_err(|e| e.moved(place))?;
        let name = NodeName {
            local: tag.local,
            namespace,
        };
        let row = self
            .push(NodeKind::Element, self.owner, name, line)
            .map_err(|e| e.moved(place))?;
        self.in_text = false;
        for index in 0..self.attributes.len() {
            if let Some(attribute) = self.attributes.get(index).copied() {
                self.put_attribute(row, attribute)
                    .map_err(|e| e.moved(attribute.place))?;
            }
        }
        Ok(row)
    }

    // Reads the value of an attribute, between its quotes, into `value`: as the value of the attribute of an element
    // where it declares a namespace, and otherwise to find what is wrong with it.
    fn read_value(
        &mut self,
        doctype: &Doctype,
        tag: u32,
        number: u32,
        text: &[u8],
    ) -> Result<(), Stop> {
        self.value.clear();
        expand(
            doctype,
            &mut self.declarations.expansion,
            text,
            MAX_OPEN_ENTITIES,
            &mut self.value,
        )?;
        if self.declarations.tags.tag(number).declares && doctype.is_tokenized(tag, number) {
            tokenize(&mut self.value);
        }
        Ok(())
    }

    // Reads the attribute at `at` of a tag; the place past it: [41] Attribute.
    fn read_attribute(
        &mut self,
        doctype: &Doctype,
        tag: u32,
        text: &[u8],
        at: usize,
    ) -> Result<usize, Stop>
        requires { at ≤ length text.now }
        ensures { IfOk result (λ e. (at < e) × (e ≤ length text.now)) }
    {
        let name_end = past_name(text, at)?;
        let start = past_equals(text, name_end)?;
        let (end, has_reference) = value_end(text, start)?;
        let number = self
            .declarations
            .tags
            .number(&text[at..name_end])
            .map_err(|e| e.after(at))?;
        if self.declarations.tags.see(number, self.tag_count) {
            return Err(Stop::At(at, Reason::DuplicateAttribute));
        }
        if has_reference || self.declarations.tags.tag(number).declares {
            self.read_value(doctype, tag, number, &text[start + 1..end])
                .map_err(|e| e.after(start + 1))?;
        }
        self.reach(text, at);
        self.add_attribute(number, at, self.line)?;
        Ok(end + 1)
    }

    // Reads the attributes of the tag whose name ends at `end`; whether it is an empty element's, and the place past
    // it.
    fn read_attributes(
        &mut self,
        doctype: &Doctype,
        tag: u32,
        text: &[u8],
        end: usize,
    ) -> Result<(bool, usize), Stop>
        requires { end ≤ length text.now }
        ensures { IfOk result (λ r. (end < r.1) × (r.1 ≤ length text.now)) }
    {
        let mut at = end;
        while at < text.len() {
            let next = past_spaces(text, at);
            match byte_at(text, next) {
                b'>' if next < text.len() => return Ok((false, next + 1)),
                b'/' => {
                    let past = expect(text, next, b"/>", Reason::TagEndExpected)?;
                    return Ok((true, past));
                }
                _ => {}
            }
            if next == at {
                return Err(missing(text, at, Reason::SpaceExpected));
            }
            at = self.read_attribute(doctype, tag, text, next)?;
        }
        Err(Stop::At(at, Reason::UnexpectedEnd))
    }

    // Reads the tag at `at` that opens an element: [40] STag, [44] EmptyElemTag.
    fn read_tag(&mut self, doctype: &Doctype, text: &[u8], at: usize) -> Result<usize, Stop>
        requires { at < length text.now }
        ensures { IfOk result (λ e. (at < e) × (e ≤ length text.now)) }
    {
        let name = at + 1;
        let name_end = past_name(text, name)?;
        let tag = self
            .declarations
            .tags
            .number(&text[name..name_end])
            .map_err(|e| e.after(name))?;
        let scope = self.declarations.tags.scope();
        let line = self.line;
        self.tag_count = self.tag_count.wrapping_add(1);
        self.attributes.clear();
        let (is_empty, past) = self.read_attributes(doctype, tag, text, name_end)?;
        self.add_defaults(doctype, tag, name, line)?;
        let row = self.put_element(tag, name, line)?;
        if is_empty {
            self.declarations.tags.leave_scope(scope);
        } else {
            if self.stack.len() >= MAX_DEPTH {
                return Err(Stop::At(at, Reason::TooDeep));
            }
            self.stack.push(Element { row, tag, scope })?;
            self.owner = row;
        }
        Ok(past)
    }

    // Reads the tag at `at` that closes an element, while `base` elements stay open: [42] ETag.
    fn read_end_tag(&mut self, text: &[u8], at: usize, base: usize) -> Result<usize, Stop>
        requires { at < length text.now }
        ensures { IfOk result (λ e. (at < e) × (e ≤ length text.now)) }
    {
        let name = expect(text, at, b"</", Reason::UnknownMarkup)?;
        let name_end = past_name(text, name)?;
        let past = expect(
            text,
            past_spaces(text, name_end),
            b">",
            Reason::TagEndExpected,
        )?;
        if self.stack.len() <= base {
            return Err(Stop::At(name, Reason::EndTagMismatch));
        }
        let Some(element) = self.stack.pop() else {
            return Err(Stop::At(name, Reason::EndTagMismatch));
        };
        if !self
            .declarations
            .tags
            .is_whole(element.tag, &text[name..name_end])
        {
            return Err(Stop::At(name, Reason::EndTagMismatch));
        }
        self.declarations.tags.leave_scope(element.scope);
        self.owner = match self.stack.as_slice().last() {
            Some(parent) => parent.row,
            None => 0,
        };
        self.in_text = false;
        Ok(past)
    }

    // Reads the section at `at`: [18] CDSect. An empty one is no text.
    fn read_section(&mut self, text: &[u8], at: usize) -> Result<usize, Stop>
        requires { at < length text.now }
        ensures { IfOk result (λ e. (at < e) × (e ≤ length text.now)) }
    {
        let start = expect(text, at, b"<![CDATA[", Reason::UnknownMarkup)?;
        let end = find(text, start, b"]]>")?;
        if start < end {
            self.put_text().map_err(|e| e.moved(at))?;
        }
        expect(text, end, b"]]>", Reason::UnknownMarkup)
    }

    // Reads the markup at `at`, a `<`.
    fn read_markup(
        &mut self,
        doctype: &Doctype,
        text: &[u8],
        at: usize,
        base: usize,
    ) -> Result<usize, Stop>
        requires { at < length text.now }
        ensures { IfOk result (λ e. (at < e) × (e ≤ length text.now)) }
    {
        match byte_at(text, at + 1) {
            b'/' => self.read_end_tag(text, at, base),
            b'?' => self.read_instruction(text, at),
            b'!' if stands(text, at, b"<!--") => self.read_comment(text, at),
            b'!' => self.read_section(text, at),
            _ => self.read_tag(doctype, text, at),
        }
    }

    // Reads what begins at `at`; the place past it, and the number of an entity in place of what that stands for.
    fn read_piece(
        &mut self,
        doctype: &Doctype,
        text: &[u8],
        at: usize,
        base: usize,
    ) -> Result<(Option<u32>, usize), Stop>
        requires { at < length text.now }
        ensures { IfOk result (λ r. (at < r.1) × (r.1 ≤ length text.now)) }
    {
        if text[at] == b'<' {
            let past = self.read_markup(doctype, text, at, base)?;
            return Ok((None, past));
        }
        let past = if text[at] == b'&' {
            let (reference, past) = read_reference(doctype, text, at)?;
            if let Reference::Entity(number) = reference {
                return Ok((Some(number), past));
            }
            past
        } else {
            past_text(text, at)?
        };
        self.put_text().map_err(|e| e.moved(at))?;
        Ok((None, past))
    }

    // Reads content from `from` on: of an entity all of it, and of the document, whose level is MAX_OPEN_ENTITIES, one
    // element. The place past it.
    fn read_content(
        &mut self,
        doctype: &Doctype,
        text: &[u8],
        from: usize,
        level: u32,
    ) -> Result<usize, Stop>
        requires { from ≤ length text.now }
        ensures { IfOk result (λ e. (from ≤ e) × (e ≤ length text.now)) }
    {
        let base = self.stack.len();
        let is_top = level == MAX_OPEN_ENTITIES;
        let mut at = from;
        while at < text.len() {
            self.in_entity = !is_top;
            self.reach(text, at);
            let (entity, past) = self.read_piece(doctype, text, at, base)?;
            if let Some(number) = entity {
                if level == 0 {
                    return Err(Stop::At(at, Reason::TooManyOpenEntities));
                }
                let inner = doctype.replacement(number);
                self.declarations
                    .expansion
                    .open(number, inner.len())
                    .map_err(|e| e.moved(at))?;
                let _ = self
                    .read_content(doctype, inner, 0, level - 1)
                    .map_err(|e| e.moved(at))?;
                self.declarations.expansion.close(number);
            }
            at = past;
            if is_top && self.stack.is_empty() {
                return Ok(at);
            }
        }
        if self.stack.len() == base && !is_top {
            Ok(at)
        } else {
            Err(Stop::At(at, Reason::UnclosedElement))
        }
    }

    /// Reads the element of the document at `at`: [39] element.
    pub fn read_element(&mut self, doctype: &Doctype, text: &[u8], at: usize) -> Result<usize, Stop>
        requires { at ≤ length text.now }
        ensures { IfOk result (λ e. (at ≤ e) × (e ≤ length text.now)) }
    {
        self.read_content(doctype, text, at, MAX_OPEN_ENTITIES)
    }
}
