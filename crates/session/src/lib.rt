// A session of terms and steps, the calls on it, and the reading and writing of bundles.
#![tactic(auto)]

mod counts;
mod order;
mod read;
mod record;
mod replace;
mod session;
mod write;

// With what calls take and answer, so that callers name no crate below.
pub use calls::{Answer, LineRefusal, Step};
pub use common::Refusal;
pub use session::Session;
pub use terms::Row;
