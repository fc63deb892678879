// Selections on documents of any size: by a row of a session, and by a selector as text.
#![tactic(auto)]

mod select;

// With what a selection takes and answers, so that callers name no crate below.
pub use document_calls::SelectionError;
pub use documents::{Document, DocumentError, Rows};
pub use select::{select_from, select_nodes, select_text};
