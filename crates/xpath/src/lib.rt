// Documents lent as 16-bit numbers, three a row, as C lends them: their check, with the ends of the rows' subtrees, and
// the node tests.
// Every public function but `climb_toward`, `parent_of` and `whole_node` takes every input; a number that no whole row
// has is read as 0.
#![tactic(auto)]

mod checked;
mod document;
mod node_tests;

pub use checked::Checked;
pub use document::{
    Climb, Node, check_document, climb_toward, is_attribute, kind_and_name_ok, node_at, node_count,
    parent_at, parent_of, whole_node,
};
pub use node_tests::{AnyNode, Named, NodeSet, OfKind, StepTest, passes_test};

/// The largest document that a call takes. Arrays of a mark or an end for each row are this long: fixed memory without
/// a heap. The document's size says how much of one is in use.
pub const MAX_NODES: usize = 512;

/// How many numbers a node has.
pub const NODE_WIDTH: usize = 3;
