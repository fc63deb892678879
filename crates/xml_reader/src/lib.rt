// A reader of XML 1.0 (fifth edition) with namespaces, that validates nothing and fetches nothing: the nodes of a
// document of any size, in document order, as XPath has them. [n] is the number of a production of XML 1.0.
//
// The text is read from place to place; functions that take a place ask that it doesn't pass the text's end, as those
// of xml_text do. Open elements are on a stack; entities are opened by recursion, at most limits::MAX_OPEN_ENTITIES.
#![tactic(auto)]

mod content;
mod content_models;
mod declarations;
mod doctype;
mod expansion;
mod instructions;
pub mod limits;
mod prolog;
mod tags;
mod values;

pub use prolog::{ReadError, read};
