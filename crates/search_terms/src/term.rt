// Terms by number, and what is proved of them.
use common::axis::Axis;
use common::node_test::NodeTest;
use common::row_kind::RowKind;

/// A term by its place in a store; equal terms have equal places.
pub type TermId = u32;

/// The terms that each store has from the start; `DOT` is self::node().
pub const VOID: TermId = 0;

pub const ROOT: TermId = 1;

pub const TRUE: TermId = 2;

pub const FALSE: TermId = 3;

pub const DOT: TermId = 4;

/// A term whose operands are in the store. A step has axis, test and name, 0 where its test has none.
#[derive(Clone, Copy, PartialEq, Eq, Debug)]
pub enum Term {
    Void,
    Root,
    Step(Axis, NodeTest, u16),
    Union(TermId, TermId),
    Composition(TermId, TermId),
    Filter(TermId, TermId),
    True,
    False,
    Not(TermId),
    And(TermId, TermId),
    Or(TermId, TermId),
    Inclusion(TermId, TermId),
}

fn key_of(kind: RowKind, a: u32, b: u32, c: u32) -> (u32, u32, u32, u32) {
    (u32::from(u16::from(kind)), a, b, c)
}

impl Term {
    // The numbers by which it is found again: its kind and its fields.
    pub(crate) fn key(self) -> (u32, u32, u32, u32) {
        match self {
            Term::Void => key_of(RowKind::Void, 0, 0, 0),
            Term::Root => key_of(RowKind::Root, 0, 0, 0),
            Term::Step(axis, test, name) => {
                let axis = u32::from(u16::from(axis));
                let test = u32::from(u16::from(test));
                key_of(RowKind::Step, axis, test, u32::from(name))
            }
            Term::Union(p, q) => key_of(RowKind::Union, p, q, 0),
            Term::Composition(p, q) => key_of(RowKind::Composition, p, q, 0),
            Term::Filter(p, f) => key_of(RowKind::Filter, p, f, 0),
            Term::True => key_of(RowKind::True, 0, 0, 0),
            Term::False => key_of(RowKind::False, 0, 0, 0),
            Term::Not(f) => key_of(RowKind::Not, f, 0, 0),
            Term::And(f, g) => key_of(RowKind::And, f, g, 0),
            Term::Or(f, g) => key_of(RowKind::Or, f, g, 0),
            Term::Inclusion(p, q) => key_of(RowKind::Inclusion, p, q, 0),
        }
    }
}

/// That `left` is contained in `right`, or implies it: the step of that number, counted from 1, says so; where both are
/// one term there need be none, and the number is 0.
#[derive(Clone, Copy, Debug)]
pub struct Proof {
    pub left: TermId,
    pub right: TermId,
    pub step: u32,
}

/// Proofs of both directions.
#[derive(Clone, Copy, Debug)]
pub struct Equality {
    pub forth: Proof,
    pub back: Proof,
}

impl Equality {
    pub fn right(self) -> TermId {
        self.forth.right
    }

    pub fn flipped(self) -> Equality {
        Equality {
            forth: self.back,
            back: self.forth,
        }
    }
}

/// A step of a derivation: its premises are steps by their numbers, 0 where there is none.
#[derive(Clone, Copy, Debug)]
pub struct ProofStep {
    pub rule: u16,
    pub left: TermId,
    pub right: TermId,
    pub first: u32,
    pub second: u32,
}

/// Whether the axis a is below b, as rule 8 asks it.
pub fn axis_below(a: Axis, b: Axis) -> bool {
    if a == b {
        return true;
    }
    match a {
        Axis::Child => matches!(b, Axis::Descendant | Axis::DescendantOrSelf),
        Axis::Descendant => b == Axis::DescendantOrSelf,
        Axis::Itself => matches!(b, Axis::DescendantOrSelf | Axis::AncestorOrSelf),
        Axis::Parent => matches!(b, Axis::Ancestor | Axis::AncestorOrSelf),
        Axis::Ancestor => b == Axis::AncestorOrSelf,
        Axis::FollowingSibling => b == Axis::Following,
        Axis::PrecedingSibling => b == Axis::Preceding,
        _ => false,
    }
}

/// Whether a test, with its name, is below another one, as rule 8 asks it.
pub fn test_below((n, name): (NodeTest, u16), (m, other): (NodeTest, u16)) -> bool {
    match (n, m) {
        (_, NodeTest::Node) => true,
        (NodeTest::Name, NodeTest::Star) => true,
        (NodeTest::Target, NodeTest::Instruction) => true,
        _ => n == m && name == other,
    }
}
