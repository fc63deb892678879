// The names of elements and attributes, their prefixes, and the namespaces in scope (Namespaces in XML 1.0).
use std::alloc::{AllocError, Global};
use xml_document::Names;
use xml_text::characters::colon_of;
use xml_text::reason::{Reason, Stop};

// The numbers of the prefixes and the namespaces that are always bound.
const XML: u32 = 1;

const XMLNS: u32 = 2;

/// What is known of a name with its prefix.
#[derive(Clone, Copy, Debug)]
pub struct Tag {
    /// The number of its prefix; 0 for none
    pub prefix: u32,
    /// The number of what stands after the prefix
    pub local: u32,
    /// Whether it declares a namespace: `xmlns`, or with that prefix
    pub declares: bool,
    /// The count of the last tag in which it stood as an attribute's name
    pub seen: u32,
    /// The first and the last declaration with a default, as an element's name; 0 for none
    pub first_default: u32,
    pub last_default: u32,
}

const NO_TAG: Tag = Tag {
    prefix: 0,
    local: 0,
    declares: false,
    seen: 0,
    first_default: 0,
    last_default: 0,
};

#[derive(Clone, Copy, Debug)]
struct Binding {
    prefix: u32,
    namespace: u32,
}

/// The names that have been met, each by a number, and the bindings of prefixes.
#[derive(Debug, Drop)]
pub struct Tags {
    // with their prefixes
    whole: Names,
    tags: Vec<Tag>,
    // without
    names: Names,
    prefixes: Names,
    namespaces: Names,
    // the namespace of each prefix, by its number, 0 for none; that of no prefix first
    bound: Vec<u32>,
    // what the bindings in scope have hidden
    hidden: Vec<Binding>,
    // attributes in a namespace, and the count of the last tag in which each stood
    pairs: Names,
    pairs_seen: Vec<u32>,
}

fn declares_namespace(name: &[u8]) -> bool {
    name == b"xmlns".as_slice() || name.starts_with(b"xmlns:")
}

impl Tags {
    pub fn new(alloc: Global) -> Result<Tags, AllocError> {
        let mut tags = Tags {
            whole: Names::new(alloc),
            tags: Vec::new(alloc),
            names: Names::new(alloc),
            prefixes: Names::new(alloc),
            namespaces: Names::new(alloc),
            bound: Vec::new(alloc),
            hidden: Vec::new(alloc),
            pairs: Names::new(alloc),
            pairs_seen: Vec::new(alloc),
        };
        let _ = tags.prefixes.number(b"xml")?;
        let _ = tags.prefixes.number(b"xmlns")?;
        let _ = tags
            .namespaces
            .number(b"http://www.w3.org/XML/1998/namespace")?;
        let _ = tags.namespaces.number(b"http://www.w3.org/2000/xmlns/")?;
        tags.bound.push(0)?;
        tags.bound.push(XML)?;
        tags.bound.push(XMLNS)?;
        Ok(tags)
    }

    /// The names without prefixes, and the namespaces.
    pub fn finish(self) -> (Names, Names) {
        let Tags {
            names,
            namespaces,
            ..
        } = self;
        (names, namespaces)
    }

    fn prefix_number(&mut self, prefix: &[u8]) -> Result<u32, AllocError> {
        let numbered = self.prefixes.number(prefix)?;
        if numbered.is_new {
            self.bound.push(0)?;
        }
        Ok(numbered.number)
    }

    /// The number of the target of an instruction, or of another name without a prefix.
    pub fn local_number(&mut self, name: &[u8]) -> Result<u32, AllocError> {
        Ok(self.names.number(name)?.number)
    }

    /// The number of an element's or an attribute's name. A place is one in the name.
    pub fn number(&mut self, name: &[u8]) -> Result<u32, Stop> {
        let numbered = self.whole.number(name)?;
        if numbered.is_new {
            let colon = colon_of(name)?;
            let (prefix, local) = if colon < name.len() {
                (self.prefix_number(&name[..colon])?, &name[colon + 1..])
            } else {
                (0, name)
            };
            let local = self.local_number(local)?;
            let declares = declares_namespace(name);
            self.tags.push(Tag {
                prefix,
                local,
                declares,
                ..NO_TAG
            })?;
        }
        Ok(numbered.number)
    }

    /// What is known of a number.
    pub fn tag(&self, number: u32) -> Tag {
        let found = match number.checked_sub(1) {
            Some(index) => self.tags.get(index as usize),
            None => None,
        };
        match found {
            Some(tag) => *tag,
            None => NO_TAG,
        }
    }

    pub fn set_tag(&mut self, number: u32, tag: Tag) {
        if let Some(index) = number.checked_sub(1) {
            if let Some(place) = self.tags.get_mut(index as usize) {
                *place = tag;
            }
        }
    }

    /// Whether a number is that of a name with its prefix.
    pub fn is_whole(&self, number: u32, name: &[u8]) -> bool {
        self.whole.is(number, name)
    }

    /// The name with its prefix.
    pub fn whole_name(&self, number: u32) -> &[u8] {
        match self.whole.get(number) {
            Some(name) => name,
            None => b"",
        }
    }

    /// Notes that an attribute's name stands in a tag; whether it did already.
    pub fn see(&mut self, number: u32, tag_count: u32) -> bool {
        let mut tag = self.tag(number);
        let seen = tag.seen == tag_count;
        tag.seen = tag_count;
        self.set_tag(number, tag);
        seen
    }

    /// Notes that an attribute of a namespace stands in a tag; whether it did already, under another prefix.
    pub fn see_pair(
        &mut self,
        namespace: u32,
        local: u32,
        tag_count: u32,
    ) -> Result<bool, AllocError> {
        let [a, b, c, d] = namespace.to_le_bytes();
        let [e, f, g, h] = local.to_le_bytes();
        let numbered = self.pairs.number(&[a, b, c, d, e, f, g, h])?;
        if numbered.is_new {
            self.pairs_seen.push(0)?;
        }
        let index = numbered.number.saturating_sub(1);
        let Some(place) = self.pairs_seen.get_mut(index as usize) else {
            return Ok(false);
        };
        let seen = *place == tag_count;
        *place = tag_count;
        Ok(seen)
    }

    /// The scope that is open, for `leave_scope`.
    pub fn scope(&self) -> usize {
        self.hidden.len()
    }

    /// Ends what has been declared since.
    pub fn leave_scope(&mut self, scope: usize) {
        for _ in scope..self.hidden.len() {
            if let Some(old) = self.hidden.pop() {
                if let Some(place) = self.bound.get_mut(old.prefix as usize) {
                    *place = old.namespace;
                }
            }
        }
    }

    /// Declares a namespace, as an attribute with this name and this value does.
    pub fn declare(&mut self, number: u32, value: &[u8]) -> Result<(), Stop> {
        let tag = self.tag(number);
        let namespace = if value.is_empty() {
            0
        } else {
            self.namespaces.number(value)?.number
        };
        let prefix = if tag.prefix == 0 {
            0
        } else {
            self.declared_prefix(tag)?
        };
        if prefix == XMLNS || namespace == XMLNS || (prefix == XML) != (namespace == XML) {
            return Err(Stop::At(0, Reason::ReservedPrefix));
        }
        if prefix != 0 && namespace == 0 {
            return Err(Stop::At(0, Reason::EmptyNamespace));
        }
        if let Some(place) = self.bound.get_mut(prefix as usize) {
            let old = *place;
            *place = namespace;
            self.hidden.push(Binding {
                prefix,
                namespace: old,
            })?;
        }
        Ok(())
    }

    // The number of the prefix that `xmlns:prefix` declares.
    fn declared_prefix(&mut self, tag: Tag) -> Result<u32, AllocError> {
        let numbered = self
            .prefixes
            .number(self.names.get(tag.local).unwrap_or(b""))?;
        if numbered.is_new {
            self.bound.push(0)?;
        }
        Ok(numbered.number)
    }

    /// The namespace of a prefix; of no prefix, the default one, 0 where none is declared.
    pub fn namespace_of(&self, prefix: u32) -> Result<u32, Stop> {
        let namespace = match self.bound.get(prefix as usize) {
            Some(namespace) => *namespace,
            None => 0,
        };
        if prefix != 0 && namespace == 0 {
            return Err(Stop::At(0, Reason::UnboundPrefix));
        }
        Ok(namespace)
    }
}
