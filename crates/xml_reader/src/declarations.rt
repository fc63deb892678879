// The document type declaration and its internal subset: [28] doctypedecl, [28b] intSubset, [29] markupdecl,
// [52] AttlistDecl to [60] DefaultDecl, [70] EntityDecl to [76] NDataDecl, [82] NotationDecl. Other files are not
// fetched.
ghost use Rattle.std.specs.Prelude.{◌≡◌, ◌≤◌, ◌<◌, ◌+◌, length, IfOk, IfSome};

use crate::content_models::past_element;
use crate::doctype::{Doctype, EntityKind};
use crate::expansion::Expansion;
use crate::instructions::{past_comment, past_instruction};
use crate::limits::MAX_OPEN_ENTITIES;
use crate::tags::Tags;
use crate::values::{entity_value, expand, tokenize, value_end};
use std::alloc::Global;
use xml_text::characters::{
    expect, is_space, missing, past_name, past_name_characters, past_plain_name,
    past_qualified_name, past_some_spaces, past_spaces, stands,
};
use xml_text::declaration::quoted_end;
use xml_text::reason::{Reason, Stop};

/// What declarations add to.
#[derive(Debug, Drop)]
pub struct Declarations {
    pub doctype: Doctype,
    pub tags: Tags,
    pub expansion: Expansion,
    // whether a reference to a parameter entity leaves the declarations after it uncounted: not in a document that
    // stands alone
    heeds_references: bool,
    // whether declarations count no more
    is_cut: bool,
    // the value that is read
    value: Vec<u8>,
}

// [13] PubidChar.
fn is_public_byte(b: u8) -> bool {
    b.is_ascii_alphanumeric() || b" \r\n-'()+,./:=?;!*#@$_%".contains(&b)
}

// Past the public identifier in the quotes at `at`: [12] PubidLiteral.
fn past_public_literal(text: &[u8], at: usize) -> Result<usize, Stop>
    requires { at ≤ length text.now }
    ensures { IfOk result (λ e. (at < e) × (e ≤ length text.now)) }
{
    let end = quoted_end(text, at)?;
    for i in at + 1..end {
        if !is_public_byte(text[i]) {
            return Err(Stop::At(i, Reason::BadPublicIdentifier));
        }
    }
    Ok(end + 1)
}

// Past the system literal in the quotes at `at`: [11] SystemLiteral.
fn past_system_literal(text: &[u8], at: usize) -> Result<usize, Stop>
    requires { at ≤ length text.now }
    ensures { IfOk result (λ e. (at < e) × (e ≤ length text.now)) }
{
    let end = quoted_end(text, at)?;
    Ok(end + 1)
}

// Past the identifier of something outside at `at`: [75] ExternalID, and of a notation also [83] PublicID.
fn past_external(text: &[u8], at: usize, is_notation: bool) -> Result<usize, Stop>
    requires { at ≤ length text.now }
    ensures { IfOk result (λ e. (at < e) × (e ≤ length text.now)) }
{
    if stands(text, at, b"SYSTEM") {
        let system = past_some_spaces(text, expect(text, at, b"SYSTEM", Reason::BadDoctype)?)?;
        return past_system_literal(text, system);
    }
    let public = past_some_spaces(text, expect(text, at, b"PUBLIC", Reason::BadDoctype)?)?;
    let past = past_public_literal(text, public)?;
    let system = past_spaces(text, past);
    let has_system = system < text.len() && matches!(text[system], b'"' | b'\'');
    if is_notation && !has_system {
        return Ok(past);
    }
    past_system_literal(text, past_some_spaces(text, past)?)
}

// Past the values of an enumeration whose `(` ends at `at`: [58] NotationType has names, [59] Enumeration name tokens.
fn past_enumeration(text: &[u8], at: usize, has_names: bool) -> Result<usize, Stop>
    requires { at ≤ length text.now }
    ensures { IfOk result (λ e. (at < e) × (e ≤ length text.now)) }
{
    let mut i = at;
    while i < text.len() {
        let start = past_spaces(text, i);
        let end = if has_names {
            past_plain_name(text, start)?
        } else {
            past_name_characters(text, start)
        };
        if end <= start {
            return Err(missing(text, start, Reason::BadAttributeList));
        }
        let next = past_spaces(text, end);
        if next < text.len() && text[next] == b'|' {
            i = next + 1;
        } else {
            return expect(text, next, b")", Reason::BadAttributeList);
        }
    }
    Err(Stop::At(i, Reason::UnexpectedEnd))
}

// Past the type of an attribute at `at`, and whether its values are tokens: [54] AttType.
fn past_type(text: &[u8], at: usize) -> Result<(usize, bool), Stop>
    requires { at ≤ length text.now }
    ensures { IfOk result (λ r. (at < r.0) × (r.0 ≤ length text.now)) }
{
    if at < text.len() && text[at] == b'(' {
        let past = past_enumeration(text, at + 1, false)?;
        return Ok((past, true));
    }
    let end = past_name(text, at)?;
    match &text[at..end] {
        b"CDATA" => Ok((end, false)),
        b"ID" | b"IDREF" | b"IDREFS" | b"ENTITY" | b"ENTITIES" | b"NMTOKEN" | b"NMTOKENS" => Ok((
            end, true,
        )),
        b"NOTATION" => {
            let group = past_some_spaces(text, end)?;
            let first = expect(text, group, b"(", Reason::BadAttributeList)?;
            let past = past_enumeration(text, first, true)?;
            Ok((past, true))
        }
        _ => Err(Stop::At(at, Reason::BadAttributeList)),
    }
}

// Past the word at `at` that says that there is no default, if one stands there.
fn past_no_default(text: &[u8], at: usize) -> Result<Option<usize>, Stop>
    requires { at ≤ length text.now }
    ensures { IfOk result (λ o. IfSome o (λ e. (at < e) × (e ≤ length text.now))) }
{
    if stands(text, at, b"#REQUIRED") {
        let past = expect(text, at, b"#REQUIRED", Reason::BadAttributeList)?;
        return Ok(Some(past));
    }
    if stands(text, at, b"#IMPLIED") {
        let past = expect(text, at, b"#IMPLIED", Reason::BadAttributeList)?;
        return Ok(Some(past));
    }
    Ok(None)
}

impl Declarations {
    pub fn new(alloc: Global, size: usize, is_standalone: bool) -> Result<Declarations, Stop> {
        Ok(Declarations {
            doctype: Doctype::new(alloc),
            tags: Tags::new(alloc)?,
            expansion: Expansion::new(alloc, size),
            heeds_references: !is_standalone,
            is_cut: false,
            value: Vec::new(alloc),
        })
    }

    // Reads the default of an attribute at `at` into `value`; whether there is one, and the place past it: [60]
    // DefaultDecl.
    fn read_default(&mut self, text: &[u8], at: usize) -> Result<(bool, usize), Stop>
        requires { at ≤ length text.now }
        ensures { IfOk result (λ r. (at < r.1) × (r.1 ≤ length text.now)) }
    {
        self.value.clear();
        if let Some(past) = past_no_default(text, at)? {
            return Ok((false, past));
        }
        let start = if stands(text, at, b"#FIXED") {
            past_some_spaces(text, expect(text, at, b"#FIXED", Reason::BadAttributeList)?)?
        } else {
            at
        };
        let (end, _) = value_end(text, start)?;
        expand(
            &self.doctype,
            &mut self.expansion,
            &text[start + 1..end],
            MAX_OPEN_ENTITIES,
            &mut self.value,
        )
        .map_err(|e| e.after(start + 1))?;
        Ok((true, end + 1))
    }

    // Reads the declaration of an attribute of an element at `start`; the place past it: [53] AttDef.
    fn read_attribute(&mut self, element: u32, text: &[u8], start: usize) -> Result<usize, Stop>
        requires { start ≤ length text.now }
        ensures { IfOk result (λ e. (start < e) × (e ≤ length text.now)) }
    {
        let end = past_name(text, start)?;
        let attribute = self
            .tags
            .number(&text[start..end])
            .map_err(|e| e.after(start))?;
        let (type_end, is_tokenized) = past_type(text, past_some_spaces(text, end)?)?;
        let (has_default, past) = self.read_default(text, past_some_spaces(text, type_end)?)?;
        if is_tokenized {
            tokenize(&mut self.value);
        }
        if self.is_cut {
            return Ok(past);
        }
        let Declarations {
            doctype,
            tags,
            value,
            ..
        } = self;
        if has_default {
            doctype.add_attribute(
                tags,
                element,
                attribute,
                is_tokenized,
                Some(value.as_slice()),
            )?;
        } else {
            doctype.add_attribute(tags, element, attribute, is_tokenized, None)?;
        }
        Ok(past)
    }

    // Reads the attribute list whose `<!ATTLIST` ends at `from`: [52] AttlistDecl.
    fn read_attribute_list(&mut self, text: &[u8], from: usize) -> Result<usize, Stop>
        requires { from ≤ length text.now }
        ensures { IfOk result (λ e. (from < e) × (e ≤ length text.now)) }
    {
        let name = past_some_spaces(text, from)?;
        let name_end = past_name(text, name)?;
        let element = self
            .tags
            .number(&text[name..name_end])
            .map_err(|e| e.after(name))?;
        let mut at = name_end;
        while at < text.len() {
            let start = past_spaces(text, at);
            if start < text.len() && text[start] == b'>' {
                return Ok(start + 1);
            }
            if start == at {
                return Err(missing(text, at, Reason::SpaceExpected));
            }
            at = self.read_attribute(element, text, start)?;
        }
        Err(Stop::At(at, Reason::UnexpectedEnd))
    }

    // Reads what the entity whose value begins at `start` stands for into `value`; its kind, and the place past it:
    // [73] EntityDef, [74] PEDef.
    fn read_entity_value(
        &mut self,
        text: &[u8],
        start: usize,
        is_parameter: bool,
    ) -> Result<(EntityKind, usize), Stop>
        requires { start ≤ length text.now }
        ensures { IfOk result (λ r. (start < r.1) × (r.1 ≤ length text.now)) }
    {
        self.value.clear();
        if start < text.len() && matches!(text[start], b'"' | b'\'') {
            let end = quoted_end(text, start)?;
            entity_value(&text[start + 1..end], &mut self.value).map_err(|e| e.after(start + 1))?;
            return Ok((EntityKind::Internal, end + 1));
        }
        let past = past_external(text, start, false)?;
        let next = past_spaces(text, past);
        if next == past || is_parameter || !stands(text, next, b"NDATA") {
            return Ok((EntityKind::External, past));
        }
        let notation = past_some_spaces(
            text,
            expect(text, next, b"NDATA", Reason::BadEntityDeclaration)?,
        )?;
        let end = past_plain_name(text, notation)?;
        Ok((EntityKind::Unparsed, end))
    }

    // Reads the entity whose `<!ENTITY` ends at `at`: [70] EntityDecl. Parameter entities are left out: no reference
    // to one is read.
    fn read_entity(&mut self, text: &[u8], at: usize) -> Result<usize, Stop>
        requires { at ≤ length text.now }
        ensures { IfOk result (λ e. (at < e) × (e ≤ length text.now)) }
    {
        let first = past_some_spaces(text, at)?;
        let is_parameter = first < text.len() && text[first] == b'%';
        let name = if is_parameter {
            past_some_spaces(text, first + 1)?
        } else {
            first
        };
        let name_end = past_plain_name(text, name)?;
        let start = past_some_spaces(text, name_end)?;
        let (kind, past) = self.read_entity_value(text, start, is_parameter)?;
        if !is_parameter && !self.is_cut {
            self.doctype
                .add_entity(&text[name..name_end], kind, self.value.as_slice())?;
        }
        expect(
            text,
            past_spaces(text, past),
            b">",
            Reason::BadEntityDeclaration,
        )
    }

    // Reads one declaration of the internal subset at `at`, or past the reference there to a parameter entity, after
    // which declarations don't count ("Validating and Non-Validating Processors"): [28a] DeclSep, [29] markupdecl.
    fn read_declaration(&mut self, alloc: Global, text: &[u8], at: usize) -> Result<usize, Stop>
        requires { at < length text.now }
        ensures { IfOk result (λ e. (at < e) × (e ≤ length text.now)) }
    {
        if stands(text, at, b"<!ELEMENT") {
            past_element(
                alloc,
                text,
                expect(text, at, b"<!ELEMENT", Reason::BadDoctype)?,
            )
        } else if stands(text, at, b"<!ATTLIST") {
            self.read_attribute_list(text, expect(text, at, b"<!ATTLIST", Reason::BadDoctype)?)
        } else if stands(text, at, b"<!ENTITY") {
            self.read_entity(text, expect(text, at, b"<!ENTITY", Reason::BadDoctype)?)
        } else if stands(text, at, b"<!NOTATION") {
            past_notation(text, expect(text, at, b"<!NOTATION", Reason::BadDoctype)?)
        } else if stands(text, at, b"<!--") {
            past_comment(text, at)
        } else if stands(text, at, b"<?") {
            let (_, past) = past_instruction(text, at)?;
            Ok(past)
        } else if text[at] == b'%' {
            let name_end = past_plain_name(text, at + 1)?;
            self.is_cut = self.heeds_references;
            expect(text, name_end, b";", Reason::SemicolonExpected)
        } else {
            Err(Stop::At(at, Reason::BadDoctype))
        }
    }

    // Reads the internal subset whose `[` ends at `from`; the place past its `]`: [28b] intSubset.
    fn read_subset(&mut self, alloc: Global, text: &[u8], from: usize) -> Result<usize, Stop>
        requires { from ≤ length text.now }
        ensures { IfOk result (λ e. (from < e) × (e ≤ length text.now)) }
    {
        let mut next = from;
        while next < text.len() {
            if text[next] == b']' {
                return Ok(next + 1);
            }
            next = if is_space(text[next]) {
                next + 1
            } else {
                self.read_declaration(alloc, text, next)?
            };
        }
        Err(Stop::At(next, Reason::UnexpectedEnd))
    }

    /// Reads the document type declaration at `at`, its `<!DOCTYPE`: [28] doctypedecl.
    pub fn read_doctype(&mut self, alloc: Global, text: &[u8], at: usize) -> Result<usize, Stop>
        requires { at ≤ length text.now }
        ensures { IfOk result (λ e. (at < e) × (e ≤ length text.now)) }
    {
        let name = past_some_spaces(text, expect(text, at, b"<!DOCTYPE", Reason::BadDoctype)?)?;
        let name_end = past_qualified_name(text, name)?;
        let mut next = past_spaces(text, name_end);
        if next > name_end && (stands(text, next, b"SYSTEM") || stands(text, next, b"PUBLIC")) {
            next = past_spaces(text, past_external(text, next, false)?);
        }
        if next < text.len() && text[next] == b'[' {
            next = past_spaces(text, self.read_subset(alloc, text, next + 1)?);
        }
        expect(text, next, b">", Reason::BadDoctype)
    }
}

// Past the notation declaration whose `<!NOTATION` ends at `at`: [82] NotationDecl.
fn past_notation(text: &[u8], at: usize) -> Result<usize, Stop>
    requires { at ≤ length text.now }
    ensures { IfOk result (λ e. (at < e) × (e ≤ length text.now)) }
{
    let name = past_some_spaces(text, at)?;
    let identifier = past_some_spaces(text, past_plain_name(text, name)?)?;
    let past = past_external(text, identifier, true)?;
    expect(text, past_spaces(text, past), b">", Reason::BadDoctype)
}
