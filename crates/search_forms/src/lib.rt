// Normal forms of terms, with proofs of both directions: a path as a union of chains that group from the left, each
// step with at most one filter; a qualifier with `not` only before "p in V", and with `and` and `or` grouped from the
// left. Nothing of it is trusted, as in crate search_terms.
#![tactic(auto)]

mod forms;

pub use forms::Forms;
