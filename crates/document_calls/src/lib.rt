// Select calls on checked documents of any size.
#![tactic(auto)]

mod select;
mod selection_error;

pub use select::{select_from, select_nodes};
pub use selection_error::SelectionError;
