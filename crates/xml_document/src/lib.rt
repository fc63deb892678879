// A document of any size that was read from XML: its nodes as columns, and tables of names. Columns are checked once,
// when the document is made.
#![tactic(auto)]

mod check;
mod columns;
mod document;
mod names;
mod rows;

pub use columns::Columns;
pub use document::Document;
pub use names::{Names, Numbered};
pub use rows::{Node, Rows};
