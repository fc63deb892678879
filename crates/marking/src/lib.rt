// The nodes that a step selects, marked beside those that are marked already: a mark is 1, and a node without one has
// 0. The document is well formed, and `ends` has the ends of its rows' subtrees, so that no axis needs a look at every
// node.
#![tactic(auto)]

ghost use Rattle.std.specs.Prelude.{◌≡◌, true, false, ◌&&◌, ◌||◌, ◌≤◌, ◌<◌, ltb, leb, eqb, length, get_or, MatchOption};
ghost use Rattle.common.specs.Axes.{parent};
ghost use Rattle.common.specs.represent.Numbers.{axis_number};
ghost use Rattle.xpath.specs.Document.{parent_at, is_attribute, is_child, is_ancestor};
ghost use Rattle.xpath.specs.private.Checked.{doc};
ghost use Rattle.xpath.specs.private.Tests.{picks};
ghost use Rattle.xpath.specs.Axis.{on_axis, passes};
ghost use Rattle.marking.specs.private.Added.{Added, candidate, ChildrenFrom};

use common::axis::Axis;
use xpath::{Checked, MAX_NODES, NodeSet, StepTest};

// A step from node x of a document that was checked.
#[derive(Drop)]
struct AxisStep<'a, T> {
    document: Checked<'a>,
    axis: Axis,
    test: T,
    x: usize,
    ghost node: { x < length (doc document) },
}

impl<T: NodeSet> AxisStep<'_, T> {
    // Whether y passes the test.
    #[tactic(auto, unfolding(xpath::specs::Document::kind_at, xpath::specs::Document::name_at))]
    fn passes(&self, y: usize) -> bool
        requires { y < length (doc self.now.document) }
        ensures { result ≡ picks (T.has self.now.test) (doc self.now.document) y }
    {
        self.test.has(xpath::whole_node(self.document.numbers, y))
    }

    // Whether y is a node that the axis, but for the node itself, may hold, and passes the test: an attribute on axis
    // 11, another node on any other.
    fn is_candidate(&self, y: usize) -> bool
        requires { y < length (doc self.now.document) }
        ensures { result ≡ candidate (axis_number self.now.axis) (T.has self.now.test) (doc self.now.document) y }
    {
        let node = xpath::whole_node(self.document.numbers, y);
        (self.axis == Axis::Attribute) == node.is_attribute() && self.test.has(node)
    }

    // The node in row `at`, if it passes the test.
    fn mark_node(&self, at: usize, out: &mut [u8; MAX_NODES])
        requires { at < length (doc self.now.document) }
        ensures { Added (length (doc self.now.document)) out.old out.new
            (λ y. eqb at y && picks (T.has self.now.test) (doc self.now.document) y) }
    {
        if self.passes(at) {
            out[at] = 1;
        }
    }

    // The nodes from lo on and before hi that the axis has and that pass the test.
    fn mark_range(&self, lo: usize, hi: usize, out: &mut [u8; MAX_NODES])
        requires { (lo ≤ hi) × (hi ≤ length (doc self.now.document)) }
        ensures { Added (length (doc self.now.document)) out.old out.new
            (λ y. (leb lo y && ltb y hi)
            && candidate (axis_number self.now.axis) (T.has self.now.test) (doc self.now.document) y) }
    {
        for y in lo..hi {
            // Each is written: a branch, or a choice between 1 and what was there, takes longer.
            let mark = u8::from(self.is_candidate(y));
            out[y] = out[y] * (1 - mark) + mark;
        }
    }

    // The nodes before x whose subtrees end before it, that the axis has and that pass the test.
    fn mark_preceding(&self, out: &mut [u8; MAX_NODES])
        ensures { Added (length (doc self.now.document)) out.old out.new
            (λ y. (leb 0 y && ltb y self.now.x) && (leb (get_or self.now.document.ends.now y 0) self.now.x
            && candidate (axis_number self.now.axis) (T.has self.now.test) (doc self.now.document) y)) }
    {
        for y in 0..self.x {
            if self.end(y) <= self.x && self.is_candidate(y) {
                out[y] = 1;
            }
        }
    }

    // The parent of y.
    fn parent_of(&self, y: usize) -> usize
        requires { y < length (doc self.now.document) }
        ensures { result ≡ parent_at (doc self.now.document) y }
    {
        xpath::parent_of(self.document.numbers, y)
    }

    // The row after the subtree of y, where the next row under y's parent stands if there is one.
    fn end(&self, y: usize) -> usize
        requires { y < length (doc self.now.document) }
        ensures { result ≡ get_or self.now.document.ends.now y 0 }
    {
        usize::from(self.document.ends[y])
    }

    // The rows under p from lo on and before hi that the axis has and that pass the test. Where there are any, lo is
    // one.
    fn mark_children(&self, p: usize, lo: usize, hi: usize, out: &mut [u8; MAX_NODES])
        requires children_from { ChildrenFrom (doc self.now.document) self.now.document.ends.now p lo hi }
        ensures { Added (length (doc self.now.document)) out.old out.new
            (λ y. (leb lo y && ltb y hi) && (is_child (doc self.now.document) p y
            && candidate (axis_number self.now.axis) (T.has self.now.test) (doc self.now.document) y)) }
    {
        let mut y = lo;
        // By `while`: from a row it goes to the one after its subtree.
        while y < hi {
            let next = self.end(y);
            if self.is_candidate(y) {
                out[y] = 1;
            }
            y = next;
        }
    }

    // The ancestors of x that pass the test.
    fn mark_ancestors(&self, out: &mut [u8; MAX_NODES])
        ensures { Added (length (doc self.now.document)) out.old out.new
            (λ y. is_ancestor (doc self.now.document) y self.now.x
            && picks (T.has self.now.test) (doc self.now.document) y) }
    {
        let mut at = self.x;
        // By `while`: from a row it goes to its parent.
        while 0 < at {
            at = self.parent_of(at);
            self.mark_node(at, out);
        }
    }

    // The parent of x, if it passes the test.
    fn mark_parent(&self, out: &mut [u8; MAX_NODES])
        ensures { Added (length (doc self.now.document)) out.old out.new
            (λ y. on_axis parent (doc self.now.document) self.now.x y
            && picks (T.has self.now.test) (doc self.now.document) y) }
    {
        if self.x != 0 {
            self.mark_node(self.parent_of(self.x), out);
        }
    }

    // The parent of x, if x may have siblings.
    fn parent_of_siblings(&self) -> Option<usize>
        ensures { MatchOption result ((eqb self.now.x 0 || is_attribute (doc self.now.document) self.now.x) ≡ true)
            (λ p. ((eqb self.now.x 0 || is_attribute (doc self.now.document) self.now.x) ≡ false)
            × (p ≡ parent_at (doc self.now.document) self.now.x)) }
    {
        let x = self.x;
        if x == 0 || xpath::is_attribute(self.document.numbers, x) {
            None
        } else {
            Some(self.parent_of(x))
        }
    }

    // What the step selects.
    fn mark(&self, out: &mut [u8; MAX_NODES])
        ensures { Added (length (doc self.now.document)) out.old out.new
            (λ y. on_axis (axis_number self.now.axis) (doc self.now.document) self.now.x y
            && picks (T.has self.now.test) (doc self.now.document) y) }
    {
        let x = self.x;
        let end = self.end(x);
        match self.axis {
            Axis::Itself => self.mark_node(x, out),
            Axis::Child | Axis::Attribute => self.mark_children(x, x + 1, end, out),
            Axis::Parent => self.mark_parent(out),
            Axis::Descendant => self.mark_range(x + 1, end, out),
            Axis::Ancestor => self.mark_ancestors(out),
            Axis::DescendantOrSelf => {
                self.mark_node(x, out);
                self.mark_range(x + 1, end, out);
            }
            Axis::AncestorOrSelf => {
                self.mark_node(x, out);
                self.mark_ancestors(out);
            }
            Axis::FollowingSibling => {
                if let Some(p) = self.parent_of_siblings() {
                    self.mark_children(p, end, self.end(p), out);
                }
            }
            Axis::PrecedingSibling => {
                if let Some(p) = self.parent_of_siblings() {
                    self.mark_children(p, p + 1, x, out);
                }
            }
            Axis::Following => self.mark_range(end, xpath::node_count(self.document.numbers), out),
            Axis::Preceding => self.mark_preceding(out),
        }
    }
}

// What a step with a test of this form selects from x.
fn mark_where<T: NodeSet + Copy>(
    document: Checked,
    axis: Axis,
    test: T,
    x: usize,
    out: &mut [u8; MAX_NODES],
)
    requires { x < length (doc document) }
    ensures { Added (length (doc document.entry)) out.old out.new
        (λ y. on_axis (axis_number axis) (doc document.entry) x y && picks (T.has test) (doc document.entry) y) }
{
    AxisStep {
        document,
        axis,
        test,
        x,
    }
    .mark(out);
}

/// Marks the nodes that a step selects from x, and leaves the others. It asks for a node of the document, which the
/// caller has shown; no user calls it. Axis, test and name may be any numbers, as in a lent row.
pub fn mark_step(
    document: Checked,
    axis: u16,
    test: u16,
    name: usize,
    x: usize,
    out: &mut [u8; MAX_NODES],
)
    requires { x < length (doc document) }
    ensures { Added (length (doc document.entry)) out.old out.new
        (λ y. on_axis axis (doc document.entry) x y && passes axis test name (doc document.entry) y) }
{
    let Some(test) = StepTest::new(axis, test, name) else {
        return;
    };
    let Ok(axis) = Axis::try_from(axis) else {
        return;
    };
    // The test is told apart here, and not at each node.
    match test {
        StepTest::Everything(test) => mark_where(document, axis, test, x, out),
        StepTest::Kind(test) => mark_where(document, axis, test, x, out),
        StepTest::Name(test) => mark_where(document, axis, test, x, out),
    }
}
