// The rules without premises: which one yields `left <= right`. Letters are those of the rule table.
use crate::store::Store;
use crate::term::{DOT, FALSE, ROOT, TRUE, Term, TermId, VOID, axis_below, test_below};
use common::axis::Axis;
use common::node_test::NodeTest;

// The deepest path that has a way back here.
const DEPTH: u32 = 64;

fn way_back_axis(axis: Axis) -> Option<Axis> {
    match axis {
        Axis::Itself => Some(Axis::Itself),
        Axis::Child => Some(Axis::Parent),
        Axis::Descendant => Some(Axis::Ancestor),
        Axis::DescendantOrSelf => Some(Axis::AncestorOrSelf),
        Axis::FollowingSibling => Some(Axis::PrecedingSibling),
        Axis::PrecedingSibling => Some(Axis::FollowingSibling),
        _ => None,
    }
}

// Whether a rule from some test m to some test n holds of one child, or parent, and one further away: it does where the
// test says nothing, and where it is `*` and the other a name or `*`.
fn is_wide(m: NodeTest, n: NodeTest) -> bool {
    match m {
        NodeTest::Node => true,
        NodeTest::Star => matches!(n, NodeTest::Name | NodeTest::Star),
        _ => false,
    }
}

impl Store {
    /// The way back of rule 59.
    pub fn way_back(&self, p: TermId) -> Option<TermId> {
        self.way_back_in(p, DEPTH)
    }

    fn way_back_in(&self, p: TermId, depth: u32) -> Option<TermId> {
        let shallower = depth.checked_sub(1)?;
        match self.term(p) {
            Term::Step(a, n, c) => {
                let o = way_back_axis(a)?;
                Some(self.composition(self.step(Axis::Itself, n, c), self.node(o)))
            }
            Term::Composition(p, q) => {
                let first = self.way_back_in(q, shallower)?;
                let second = self.way_back_in(p, shallower)?;
                Some(self.composition(first, second))
            }
            Term::Union(p, q) => {
                let first = self.way_back_in(p, shallower)?;
                let second = self.way_back_in(q, shallower)?;
                Some(self.union(first, second))
            }
            Term::Filter(p, f) => {
                let second = self.way_back_in(p, shallower)?;
                Some(self.composition(self.filter(DOT, f), second))
            }
            _ => None,
        }
    }

    /// A rule without premises that yields `left <= right`, or `left => right`.
    pub fn axiom(&self, left: TermId, right: TermId) -> Option<u16> {
        if left == right {
            return Some(2);
        }
        if left == VOID {
            return Some(1);
        }
        if right == TRUE {
            return Some(14);
        }
        if left == FALSE {
            return Some(15);
        }
        if let Some(rule) = self.order_rule(left, right) {
            return Some(rule);
        }
        if let Some(rule) = self.way_rule(left, right) {
            return Some(rule);
        }
        if let Some(rule) = self.equality(left, right) {
            return Some(rule);
        }
        self.equality(right, left)
    }

    // Those that only widen.
    fn order_rule(&self, left: TermId, right: TermId) -> Option<u16> {
        match (self.term(left), self.term(right)) {
            (Term::Step(a, n, c), Term::Step(b, m, d))
                if axis_below(a, b) && test_below((n, c), (m, d)) => Some(8),
            (Term::Root, Term::Step(Axis::AncestorOrSelf, NodeTest::Node, _)) => Some(57),
            (Term::Composition(_, ROOT), Term::Root) => Some(56),
            (Term::Composition(_, s), Term::Composition(ROOT, t)) => match (
                self.term(s),
                self.term(t),
            ) {
                (Term::Step(a, n, c), Term::Step(Axis::Descendant, m, d))
                    if n != NodeTest::Node && a != Axis::Attribute && test_below((n, c), (m, d)) =>
                    { Some(26) }
                _ => None,
            },
            (Term::Inclusion(p, VOID), Term::Inclusion(q, VOID)) => match (
                self.term(p),
                self.term(q),
            ) {
                (Term::Step(Axis::Child, m, _), Term::Step(Axis::Descendant, n, _))
                    if is_wide(m, n) => { Some(22) }
                (Term::Step(Axis::Parent, m, _), Term::Step(Axis::Ancestor, n, _))
                    if is_wide(m, n) => { Some(23) }
                _ => None,
            },
            _ => None,
        }
    }

    // Those of ways along axes.
    fn way_rule(&self, left: TermId, right: TermId) -> Option<u16> {
        match (self.term(left), self.term(right)) {
            (Term::Composition(x, s), Term::Step(Axis::Following, n, c)) => {
                let all = Term::Composition(
                    self.node(Axis::AncestorOrSelf),
                    self.node(Axis::FollowingSibling),
                );
                if self.term(s) == Term::Step(Axis::DescendantOrSelf, n, c) && self.term(x) == all {
                    return Some(54);
                }
                None
            }
            (_, Term::Filter(p, f)) if p == left => {
                let w = self.way_back(left)?;
                if f == self.some(w) { Some(59) } else { None }
            }
            (Term::Composition(p, q), Term::Filter(s, f)) => self.run_rule(p, q, s, f),
            _ => None,
        }
    }

    // Rule 51.
    fn run_rule(&self, p: TermId, q: TermId, s: TermId, f: TermId) -> Option<u16> {
        let (
            Term::Filter(d, g),
            Term::Step(Axis::Child, m, c),
            Term::Step(Axis::Descendant, k, e),
        ) = (self.term(p), self.term(q), self.term(s)) else {
            return None;
        };
        let Term::Step(Axis::Descendant, n, b) = self.term(d) else {
            return None
        };
        if m == k && c == e && f == self.some(self.filter(self.step(Axis::Parent, n, b), g)) {
            return Some(51);
        }
        None
    }

    // The rule that has x on the left of its `=` and y on the right.
    fn equality(&self, x: TermId, y: TermId) -> Option<u16> {
        if let Some(rule) = self.short_equality(x, y) {
            return Some(rule);
        }
        if let Some(rule) = self.path_equality(x, y) {
            return Some(rule);
        }
        self.qualifier_equality(x, y)
    }

    fn short_equality(&self, x: TermId, y: TermId) -> Option<u16> {
        match (self.term(x), self.term(y)) {
            (_, Term::Filter(p, TRUE)) if p == x => Some(27),
            (_, Term::Composition(DOT, p)) if p == x => Some(28),
            (_, Term::Composition(p, DOT)) if p == x => Some(29),
            (Term::Filter(_, FALSE), Term::Void) => Some(30),
            (Term::Not(TRUE), Term::False) => Some(44),
            (Term::Not(FALSE), Term::True) => Some(45),
            (Term::Not(n), _) if self.term(n) == Term::Not(y) => Some(43),
            _ => None,
        }
    }

    fn path_equality(&self, x: TermId, y: TermId) -> Option<u16> {
        match (self.term(x), self.term(y)) {
            (Term::Filter(a, g), Term::Filter(p, h)) => match self.term(a) {
                Term::Filter(q, f) if p == q && self.term(h) == Term::And(f, g) => Some(31),
                _ => None,
            },
            (Term::Union(a, b), Term::Filter(p, h)) => match (self.term(a), self.term(b)) {
                (Term::Filter(q, f), Term::Filter(r, g))
                    if q == r && p == q && self.term(h) == Term::Or(f, g) => Some(32),
                _ => None,
            },
            (Term::Composition(u, r), Term::Union(a, b)) => self.union_rule(u, r, a, b),
            (Term::Filter(u, f), Term::Union(a, b)) => match self.term(u) {
                Term::Union(p, q)
                    if self.term(a) == Term::Filter(p, f) && self.term(b) == Term::Filter(q, f) =>
                    Some(35),
                _ => None,
            },
            (Term::Composition(u, r), Term::Composition(p, v)) => match self.term(u) {
                Term::Composition(a, q) if a == p && self.term(v) == Term::Composition(q, r) =>
                    Some(36),
                _ => None,
            },
            (Term::Filter(u, f), Term::Composition(p, v)) => match self.term(u) {
                Term::Composition(a, q) if a == p && self.term(v) == Term::Filter(q, f) => Some(37),
                _ => None,
            },
            (Term::Step(Axis::DescendantOrSelf, n, c), Term::Union(a, b))
                if self.term(a) == Term::Step(Axis::Descendant, n, c)
                    && self.term(b) == Term::Step(Axis::Itself, n, c) => { Some(52) }
            (Term::Step(Axis::AncestorOrSelf, n, c), Term::Union(a, b))
                if self.term(a) == Term::Step(Axis::Ancestor, n, c)
                    && self.term(b) == Term::Step(Axis::Itself, n, c) => { Some(53) }
            (Term::Step(Axis::Preceding, n, c), Term::Composition(a, b)) => {
                let all = Term::Composition(
                    self.node(Axis::AncestorOrSelf),
                    self.node(Axis::PrecedingSibling),
                );
                if self.term(b) == Term::Step(Axis::DescendantOrSelf, n, c) && self.term(a) == all {
                    return Some(55);
                }
                None
            }
            (Term::Composition(a, b), Term::Step(k, n, c))
                if self.term(b) == Term::Step(Axis::Itself, n, c)
                    && k != Axis::Attribute
                    && self.term(a) == Term::Step(k, NodeTest::Node, 0) => { Some(58) }
            (Term::Composition(u, p), Term::Filter(s, f)) => self.parent_rule(u, p, s, f),
            _ => None,
        }
    }

    // Rules 33 and 34.
    fn union_rule(&self, u: TermId, r: TermId, a: TermId, b: TermId) -> Option<u16> {
        if let Term::Union(p, q) = self.term(u) {
            if self.term(a) == Term::Composition(p, r) && self.term(b) == Term::Composition(q, r) {
                return Some(33);
            }
        }
        if let Term::Union(p, q) = self.term(r) {
            if self.term(a) == Term::Composition(u, p) && self.term(b) == Term::Composition(u, q) {
                return Some(34);
            }
        }
        None
    }

    // Rules 48 and 49.
    fn parent_rule(&self, u: TermId, p: TermId, s: TermId, f: TermId) -> Option<u16> {
        let (Term::Filter(d, g), Term::Step(Axis::Parent, m, c), Term::Step(k, i, e)) = (
            self.term(u),
            self.term(p),
            self.term(s),
        ) else {
            return None;
        };
        let (n, b, rule) = match self.term(d) {
            Term::Step(Axis::Child, n, b) if k == Axis::Itself => (n, b, 48),
            Term::Step(Axis::Descendant, n, b) if k == Axis::DescendantOrSelf => (n, b, 49),
            _ => return None,
        };
        if m == i && c == e && f == self.some(self.filter(self.step(Axis::Child, n, b), g)) {
            return Some(rule);
        }
        None
    }

    fn qualifier_equality(&self, x: TermId, y: TermId) -> Option<u16> {
        match (self.term(x), self.term(y)) {
            (Term::Inclusion(u, VOID), Term::Inclusion(w, VOID)) => match self.term(u) {
                Term::Composition(p, q) if self.term(w) == Term::Filter(p, self.some(q)) => Some(
                    38,
                ),
                _ => None,
            },
            (Term::Not(n), Term::Or(f, g)) => match self.term(n) {
                Term::And(a, b) if self.term(f) == Term::Not(a) && self.term(g) == Term::Not(b) =>
                    Some(39),
                _ => None,
            },
            (Term::Not(n), Term::And(f, g)) => match self.term(n) {
                Term::Or(a, b) if self.term(f) == Term::Not(a) && self.term(g) == Term::Not(b) =>
                    Some(40),
                _ => None,
            },
            (Term::And(f, o), Term::Or(a, b)) => match self.term(o) {
                Term::Or(g, h)
                    if self.term(a) == Term::And(f, g) && self.term(b) == Term::And(f, h) => Some(
                    41,
                ),
                _ => None,
            },
            (Term::Or(f, o), Term::And(a, b)) => match self.term(o) {
                Term::And(g, h)
                    if self.term(a) == Term::Or(f, g) && self.term(b) == Term::Or(f, h) => Some(42),
                _ => None,
            },
            (Term::And(f, g), Term::False) if self.term(g) == Term::Not(f) => Some(47),
            (Term::Inclusion(u, v), Term::And(a, b)) => match self.term(u) {
                Term::Union(p, q)
                    if self.term(a) == Term::Inclusion(p, v)
                        && self.term(b) == Term::Inclusion(q, v) => { Some(46) }
                _ => None,
            },
            _ => None,
        }
    }
}
