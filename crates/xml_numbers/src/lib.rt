// The numbers that a list gives to the names of a document that was read from XML, and with them the document that
// selectors are evaluated on.
#![tactic(auto)]

mod number_error;
mod numbering;
mod rows;
mod word;

pub use number_error::NumberError;
pub use numbering::{Lookup, Numbering, Unlisted};
pub use rows::numbered;
pub use word::is_word;
