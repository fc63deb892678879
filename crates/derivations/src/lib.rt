// A derivation that one selector is contained in another: what a search finds is made by a session's own calls, which
// judge each row and step, and so it is right whatever the search did. Work is counted in goals and attempts, and no
// clock is asked, so that an answer is the same on every machine.
#![tactic(auto)]

mod derivation;
mod limits;
mod making;
mod rows;
mod unknown;

pub use derivation::{Derivation, derive};
pub use limits::{Limits, USUAL_LIMITS};
pub use unknown::Unknown;
