// The answer of each call of a term, a step, a selection or a point, on what the caller lends: rows, steps, points.
#![tactic(auto)]

pub mod point;
pub mod select;
pub mod step;
pub mod term;
