// Bytes and words of a selector, words with their numbers, and the numbers that a lent list gives to names.
#![tactic(auto)]

pub mod bytes;
pub mod index;
pub mod list;
pub mod names;

ghost use Rattle.std.specs.Prelude.{◌≡◌, option_map};
ghost use Rattle.common.specs.NodeTests.{node_test};
ghost use Rattle.common.specs.represent.Numbers.{axis_number, test_number};
ghost use Rattle.selector_grammar.specs.Words.{axes, types};
ghost use Rattle.selector_words.specs.private.Names.{pick_from, found};

pub use crate::names::{Names, Word};
use common::axis::Axis;
use common::node_test::NodeTest;

// The names of the axes, with the axes. Tables: of a match on byte strings a proof knows the lengths alone.
const AXES: [(&[u8], Axis); 12] = [
    (b"self", Axis::Itself),
    (b"child", Axis::Child),
    (b"parent", Axis::Parent),
    (b"descendant", Axis::Descendant),
    (b"ancestor", Axis::Ancestor),
    (b"descendant-or-self", Axis::DescendantOrSelf),
    (b"ancestor-or-self", Axis::AncestorOrSelf),
    (b"following-sibling", Axis::FollowingSibling),
    (b"preceding-sibling", Axis::PrecedingSibling),
    (b"following", Axis::Following),
    (b"preceding", Axis::Preceding),
    (b"attribute", Axis::Attribute),
];

// The names of the node types, with their tests.
const TYPES: [(&[u8], NodeTest); 4] = [
    (b"node", NodeTest::Node),
    (b"text", NodeTest::Text),
    (b"comment", NodeTest::Comment),
    (b"processing-instruction", NodeTest::Instruction),
];

/// What a table has for the word.
pub fn find<T: Copy>(table: &[(&[u8], T)], word: &[u8]) -> Option<T>
    ensures { result ≡ found word.now table.now }
{
    table
        .iter()
        .find(|(name, _)| *name == word)
        .map(|(_, value)| *value)
}

/// The axis of a name.
pub fn axis_of(word: &[u8]) -> Option<Axis>
    ensures { option_map axis_number result ≡ pick_from 0 axes word.now }
{
    find(&AXES, word)
}

/// The test of a node type.
pub fn type_of(word: &[u8]) -> Option<NodeTest>
    ensures { option_map test_number result ≡ pick_from node_test types word.now }
{
    find(&TYPES, word)
}
