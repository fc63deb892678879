// What a host in C calls, by the archive of crate spinebriar_c: the number of each answer is the result, and values go
// into what it lends. Parameters are those of the host's calls, here and in each module.
#![tactic(auto)]

mod claim;
mod file;
mod read;
mod select;
mod tell;

pub use claim::spinebriar_claim;
pub use file::spinebriar_file;
pub use read::{spinebriar_read, spinebriar_read_line};
pub use select::spinebriar_select;
