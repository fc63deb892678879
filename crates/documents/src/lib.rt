// Documents of any size on the heap: their rows as they come, and the check, which finds where the subtree of each row
// ends in the same pass.
#![tactic(auto)]

mod check;
mod document;
mod document_error;
mod pushing;
mod rows;
mod unchecked;

pub use document::Document;
pub use document_error::DocumentError;
pub use rows::Rows;
