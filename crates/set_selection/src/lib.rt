// The selection from a whole set of nodes at once, on documents of any size. A set of nodes is a mark for each node,
// and a step takes one pass or two over the nodes, whatever the set.
#![tactic(auto)]

mod columns;
mod evaluation;
mod filters;
mod memory;
mod remembering;
mod steps;
mod walks;

pub use evaluation::{only, select_all};
