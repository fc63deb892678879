// What a document type declares: general entities, and attributes with their defaults. The first declaration of each
// counts.
use crate::tags::Tags;
use std::alloc::{AllocError, Global};
use xml_document::Names;
use xml_text::reason::{Reason, Stop};

#[derive(Clone, Copy, Debug, PartialEq, Eq)]
pub enum EntityKind {
    Internal,
    External,
    Unparsed,
}

#[derive(Clone, Copy, Debug)]
struct Entity {
    kind: EntityKind,
    start: usize,
    end: usize,
}

/// An attribute that is declared for an element.
#[derive(Clone, Copy, Debug)]
pub struct Declared {
    /// The number of its name
    pub attribute: u32,
    /// The next one of the same element that has a default; 0 for none
    pub next: u32,
    /// Whether the spaces of its value are normalised, as of every type but CDATA
    pub is_tokenized: bool,
    start: usize,
    end: usize,
}

#[derive(Debug, Drop)]
pub struct Doctype {
    names: Names,
    entities: Vec<Entity>,
    // what entities and defaults stand for, one after the other
    pool: Vec<u8>,
    declared: Vec<Declared>,
    // of the numbers of an element's and an attribute's name
    pairs: Names,
}

// Two numbers as a name.
fn pair(first: u32, second: u32) -> [u8; 8] {
    let [a, b, c, d] = first.to_le_bytes();
    let [e, f, g, h] = second.to_le_bytes();
    [a, b, c, d, e, f, g, h]
}

impl Doctype {
    pub fn new(alloc: Global) -> Doctype {
        Doctype {
            names: Names::new(alloc),
            entities: Vec::new(alloc),
            pool: Vec::new(alloc),
            declared: Vec::new(alloc),
            pairs: Names::new(alloc),
        }
    }

    /// Declares an entity.
    pub fn add_entity(
        &mut self,
        name: &[u8],
        kind: EntityKind,
        value: &[u8],
    ) -> Result<(), AllocError> {
        if self.names.number(name)?.is_new {
            let start = self.pool.len();
            self.pool.extend_from_slice(value)?;
            let end = self.pool.len();
            self.entities.push(Entity { kind, start, end })?;
        }
        Ok(())
    }

    /// The number of the entity that is referred to at a place.
    pub fn entity(&self, name: &[u8], at: usize) -> Result<u32, Stop> {
        let number = self.names.find(name).unwrap_or(0);
        let reason = match self.entity_at(number) {
            Some(entity) => match entity.kind {
                EntityKind::Internal => return Ok(number),
                EntityKind::External => Reason::ExternalEntity,
                EntityKind::Unparsed => Reason::UnparsedEntity,
            },
            None => Reason::UndeclaredEntity,
        };
        Err(Stop::At(at, reason))
    }

    fn entity_at(&self, number: u32) -> Option<&Entity> {
        let index = number.checked_sub(1)?;
        self.entities.get(index as usize)
    }

    /// What an entity stands for.
    pub fn replacement(&self, number: u32) -> &[u8] {
        match self.entity_at(number) {
            Some(entity) => self.piece(entity.start, entity.end),
            None => b"",
        }
    }

    fn piece(&self, start: usize, end: usize) -> &[u8] {
        match self.pool.as_slice().get(start..end) {
            Some(piece) => piece,
            None => b"",
        }
    }

    /// Declares an attribute of an element.
    pub fn add_attribute(
        &mut self,
        tags: &mut Tags,
        element: u32,
        attribute: u32,
        is_tokenized: bool,
        default: Option<&[u8]>,
    ) -> Result<(), AllocError> {
        let numbered = self.pairs.number(&pair(element, attribute))?;
        if !numbered.is_new {
            return Ok(());
        }
        let start = self.pool.len();
        self.pool.extend_from_slice(default.unwrap_or(b""))?;
        let end = self.pool.len();
        self.declared.push(Declared {
            attribute,
            next: 0,
            is_tokenized,
            start,
            end,
        })?;
        if default.is_some() {
            self.link_default(tags, element, numbered.number);
        }
        Ok(())
    }

    // Puts a declaration behind the others of its element that have a default.
    fn link_default(&mut self, tags: &mut Tags, element: u32, number: u32) {
        let mut tag = tags.tag(element);
        if tag.first_default == 0 {
            tag.first_default = number;
        } else if let Some(index) = tag.last_default.checked_sub(1) {
            if let Some(last) = self.declared.get_mut(index as usize) {
                last.next = number;
            }
        }
        tag.last_default = number;
        tags.set_tag(element, tag);
    }

    pub fn declared(&self, number: u32) -> Option<Declared> {
        let index = number.checked_sub(1)?;
        self.declared.get(index as usize).copied()
    }

    pub fn declared_count(&self) -> usize {
        self.declared.len()
    }

    /// The value that a declared attribute has by default.
    pub fn default(&self, declared: Declared) -> &[u8] {
        self.piece(declared.start, declared.end)
    }

    /// Whether the spaces of an attribute's value are normalised in an element.
    pub fn is_tokenized(&self, element: u32, attribute: u32) -> bool {
        match self.pairs.find(&pair(element, attribute)) {
            Some(number) => match self.declared(number) {
                Some(declared) => declared.is_tokenized,
                None => false,
            },
            None => false,
        }
    }
}
