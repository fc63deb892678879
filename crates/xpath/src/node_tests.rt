// The node tests.
ghost use Rattle.std.specs.Prelude.{◌≡◌, ℕ, Bool, true, ◌&&◌, eqb};
ghost use Rattle.common.specs.represent.Numbers.{kind_number};
ghost use Rattle.xpath.specs.Document.{document_of};
ghost use Rattle.xpath.specs.Axis.{principal, passes};
ghost use Rattle.xpath.specs.private.Tests.{fits, Asks};

use crate::document::{self, Node};
use common::axis;
use common::node_kind::NodeKind;
use common::node_test::NodeTest;

/// Nodes told by their kinds and names. A loop over nodes takes them as a type parameter, so that it has no branch for
/// each of a test's forms.
pub trait NodeSet {
    ghost has: { Self → ℕ → ℕ → Bool };

    fn has(&self, node: Node) -> bool
        ensures { result ≡ has self.now node.kind node.name };
}

#[derive(Clone, Copy, Debug, PartialEq, Eq)]
pub struct AnyNode;

impl NodeSet for AnyNode {
    ghost has = { λ set kind name. true };

    fn has(&self, node: Node) -> bool {
        true
    }
}

#[derive(Clone, Copy, Debug, PartialEq, Eq)]
pub struct OfKind(pub NodeKind);

impl NodeSet for OfKind {
    ghost has = { λ set kind name. eqb kind (kind_number set.0) };

    fn has(&self, node: Node) -> bool {
        node.kind == u16::from(self.0)
    }
}

#[derive(Clone, Copy, Debug, PartialEq, Eq)]
pub struct Named(pub NodeKind, pub usize);

impl NodeSet for Named {
    ghost has = { λ set kind name. eqb kind (kind_number set.0) && eqb name set.1 };

    fn has(&self, node: Node) -> bool {
        node.kind == u16::from(self.0) && usize::from(node.name) == self.1
    }
}

/// The nodes that a step's test selects: the test is read once, and asked of one node after the other.
#[derive(Clone, Copy, Debug, PartialEq, Eq)]
pub enum StepTest {
    Everything(AnyNode),
    Kind(OfKind),
    Name(Named),
}

// The kind of node that a name or `*` selects on an axis.
fn principal_kind(axis: u16) -> NodeKind
    ensures { kind_number result ≡ principal axis }
{
    if axis == axis::ATTRIBUTE {
        NodeKind::Attribute
    } else {
        NodeKind::Element
    }
}

impl StepTest {
    /// None where the test selects nothing.
    #[tactic(auto, unfolding(crate::specs::Axis::passes))]
    pub fn new(axis: u16, test: u16, name: usize) -> Option<StepTest>
        ensures { Asks axis test name result }
    {
        let test = match NodeTest::try_from(test).ok()? {
            NodeTest::Name => StepTest::Name(Named(principal_kind(axis), name)),
            NodeTest::Star => StepTest::Kind(OfKind(principal_kind(axis))),
            NodeTest::Node => StepTest::Everything(AnyNode),
            NodeTest::Text => StepTest::Kind(OfKind(NodeKind::Text)),
            NodeTest::Comment => StepTest::Kind(OfKind(NodeKind::Comment)),
            NodeTest::Instruction => StepTest::Kind(OfKind(NodeKind::Instruction)),
            NodeTest::Target if name == 0 => return None,
            NodeTest::Target => StepTest::Name(Named(NodeKind::Instruction, name)),
        };
        Some(test)
    }

    pub fn passes(self, node: Node) -> bool
        ensures { result ≡ fits self node.kind node.name }
    {
        match self {
            StepTest::Everything(set) => set.has(node),
            StepTest::Kind(set) => set.has(node),
            StepTest::Name(set) => set.has(node),
        }
    }
}

#[tactic(auto, unfolding(crate::specs::Document::kind_at, crate::specs::Document::name_at))]
pub fn passes_test(d: &[u16], axis: u16, test: u16, name: usize, y: usize) -> bool
    ensures { result ≡ passes axis test name (document_of d.now) y }
{
    StepTest::new(axis, test, name).is_some_and(|test| test.passes(document::node_at(d, y)))
}
