// The search for a derivation: goals "p is contained in q" and "f implies g", from the conclusion back to the rules.
// What a rule's function needs of another goal it looks up; what isn't known yet it asks for, and is then tried again.
// Letters are those of the rules: p, q of paths, f, g of qualifiers, a::N of steps. Nothing of it is trusted, as in
// crate search_terms.
#![tactic(auto)]

mod chains;
mod facts;
mod goals;
mod paths;
mod qualifiers;
mod search;
mod widen;

pub use goals::{Goal, Kind, Outcome};
pub use search::Search;
