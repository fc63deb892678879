// Why a document is refused, and the place in its text.
use std::alloc::{AllocError, AllocFailed};
use thiserror::Error;

/// Why a document is refused, in a few words.
#[derive(Clone, Copy, Debug, PartialEq, Eq, Error)]
pub enum Reason {
    #[error("the encoding is not one that is read")]
    UnknownEncoding,
    #[error("the declared encoding is not that of the bytes")]
    EncodingMismatch,
    #[error("the bytes are no character of the encoding")]
    MalformedBytes,
    #[error("a character that XML doesn't have")]
    ForbiddenCharacter,

    #[error("the document ends too early")]
    UnexpectedEnd,
    #[error("a name is expected")]
    NameExpected,
    #[error("a space is expected")]
    SpaceExpected,
    #[error("a quote is expected")]
    QuoteExpected,
    #[error("`=` is expected")]
    EqualsExpected,
    #[error("`>` is expected")]
    TagEndExpected,
    #[error("`;` is expected")]
    SemicolonExpected,
    #[error("markup that XML doesn't have")]
    UnknownMarkup,
    #[error("the XML declaration is malformed")]
    BadDeclaration,
    #[error("the target of an instruction may not be `xml`")]
    ReservedTarget,
    #[error("`--` in a comment")]
    BadComment,
    #[error("the character reference is malformed")]
    BadCharacterReference,
    #[error("a reference to a character that XML doesn't have")]
    ForbiddenReference,
    #[error("`]]>` in text")]
    SectionEndInText,
    #[error("`<` in an attribute's value")]
    LessInValue,
    #[error("the attribute stands twice in the tag")]
    DuplicateAttribute,
    #[error("the end tag is not that of the open element")]
    EndTagMismatch,
    #[error("an element is not closed")]
    UnclosedElement,
    #[error("the document has no element")]
    NoRoot,
    #[error("text outside the document's element")]
    TextOutsideRoot,
    #[error("the document has a second element")]
    SecondRoot,

    #[error("a second document type, or one behind the element")]
    MisplacedDoctype,
    #[error("the document type is malformed")]
    BadDoctype,
    #[error("a character that a public identifier doesn't have")]
    BadPublicIdentifier,
    #[error("the content model is malformed")]
    BadContentModel,
    #[error("the attribute list is malformed")]
    BadAttributeList,
    #[error("the entity's declaration is malformed")]
    BadEntityDeclaration,
    #[error("a reference to a parameter entity in a declaration")]
    ParameterEntity,
    #[error("the entity is not declared")]
    UndeclaredEntity,
    #[error("the entity is in another file, which is not read")]
    ExternalEntity,
    #[error("the entity is not parsed, and may not be referred to")]
    UnparsedEntity,
    #[error("the entity refers to itself")]
    RecursiveEntity,

    #[error("the colon is misplaced")]
    BadQualifiedName,
    #[error("the prefix is not declared")]
    UnboundPrefix,
    #[error("the prefix, or the namespace, is reserved")]
    ReservedPrefix,
    #[error("a prefix is declared with no namespace")]
    EmptyNamespace,

    #[error("the document is larger than 4 GiB")]
    TooLarge,
    #[error("the document has too many nodes")]
    TooManyNodes,
    #[error("too many elements are open")]
    TooDeep,
    #[error("too many entities are open")]
    TooManyOpenEntities,
    #[error("too many groups of a content model are open")]
    TooManyOpenGroups,
    #[error("the entities stand for too much")]
    TooMuchExpansion,

    /// No document is known that is refused for it: the check of what was read is what proves its facts.
    #[error("what was read is no document")]
    NoDocument,
}

/// Why reading stops, at a place in the text.
#[derive(Clone, Copy, Debug, PartialEq, Eq)]
pub enum Stop {
    At(usize, Reason),
    Memory,
}

impl<T: Drop> From<AllocFailed<T>> for Stop {
    fn from(_error: AllocFailed<T>) -> Stop {
        Stop::Memory
    }
}

impl From<AllocError> for Stop {
    fn from(_error: AllocError) -> Stop {
        Stop::Memory
    }
}

impl Stop {
    /// The same, of a text that begins at `from` of another.
    pub fn after(self, from: usize) -> Stop {
        match self {
            Stop::At(at, reason) => Stop::At(from.saturating_add(at), reason),
            Stop::Memory => Stop::Memory,
        }
    }

    /// The same, at the reference to the text.
    pub fn moved(self, place: usize) -> Stop {
        match self {
            Stop::At(_, reason) => Stop::At(place, reason),
            Stop::Memory => Stop::Memory,
        }
    }
}
