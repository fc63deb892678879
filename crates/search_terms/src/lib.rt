// Terms and steps of the search for a derivation. Equal terms are one term, and both are only ever added. Nothing of
// it is trusted: a session's calls judge each row and step again, so that a mistake here costs an answer and never
// makes a wrong one. A store takes `&self`, so that calls nest as terms do. What finds no room is made up, and the
// store says that it is full.
#![tactic(auto)]

mod axioms;
mod equalities;
mod shape;
mod store;
mod term;

pub use store::Store;
pub use term::{
    DOT, Equality, FALSE, Proof, ProofStep, ROOT, TRUE, Term, TermId, VOID, axis_below, test_below,
};
