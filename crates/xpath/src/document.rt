// Documents lent as 16-bit numbers, three a row: their rows, and their check, which climbs toward ancestors and finds
// the ends of the rows' subtrees.
ghost use Rattle.std.specs.Prelude.{◌≡◌, ◌||◌, suc, ◌<◌, ◌≤◌, length, get_or, eqb, map};
ghost use Rattle.xpath.specs.Document.{parent_at, is_attribute, attribute_placed, kind_and_name_ok, row_ok_by};
ghost use Rattle.xpath.specs.Document.{document_of, root_node, max_nodes};
ghost use Rattle.xpath.specs.private.Nodes.{node_of, node_in};
ghost use Rattle.common.specs.NodeKinds.{attribute_kind};
ghost use Rattle.xpath.specs.Climb.{climb_met};
ghost use Rattle.xpath.specs.represent.Check.{DocumentChecked, ClimbMade, Placed, FirstBad, closed_before};

use crate::{MAX_NODES, NODE_WIDTH};
use common::node_kind;

/// A node, as its row has it.
#[derive(Clone, Copy, Debug, PartialEq, Eq)]
pub struct Node {
    pub kind: u16,
    pub parent: u16,
    pub name: u16,
}

// What stands past the last row: the definitions go on with it.
const NO_NODE: Node = Node {
    kind: node_kind::ROOT,
    parent: 0,
    name: 0,
};

impl From<[u16; NODE_WIDTH]> for Node {
    ghost from_gives = { λ numbers node. node_of node ≡ node_in numbers };

    fn from([kind, parent, name]: [u16; NODE_WIDTH]) -> Node {
        Node { kind, parent, name }
    }
}

impl Node {
    pub fn is_attribute(self) -> bool
        ensures { result ≡ eqb self.kind attribute_kind }
    {
        self.kind == node_kind::ATTRIBUTE
    }
}

// The whole rows, each as its numbers. `as_chunks` and `get` are what nodes, rows, steps and points share, here and in
// the crates above; each says what its numbers are.
#[tactic(auto, using(crate::proofs::LentNumbers::nodes_by_three))]
fn nodes(d: &[u16]) -> &[[u16; NODE_WIDTH]]
    ensures { map node_in result.now ≡ document_of d.now }
{
    d.as_chunks().0
}

/// The number of whole rows.
pub fn node_count(d: &[u16]) -> usize
    ensures { result ≡ length (document_of d.now) }
{
    nodes(d).len()
}

/// The node in row y; `0 0 0` past the last row.
pub fn node_at(d: &[u16], y: usize) -> Node
    ensures { node_of result ≡ get_or (document_of d.now) y root_node }
{
    match nodes(d).get(y) {
        Some(&numbers) => Node::from(numbers),
        None => NO_NODE,
    }
}

/// The node in a whole row, without the test of `node_at`: with it steps take up to 1.7 times as long.
pub fn whole_node(d: &[u16], y: usize) -> Node
    requires { y < length (document_of d.now) }
    ensures { node_of result ≡ get_or (document_of d.now) y root_node }
{
    Node::from(nodes(d)[y])
}

#[tactic(auto, unfolding(crate::specs::Document::parent_at))]
pub fn parent_at(d: &[u16], y: usize) -> usize
    ensures { result ≡ parent_at (document_of d.now) y }
{
    usize::from(node_at(d, y).parent)
}

#[tactic(auto, unfolding(crate::specs::Document::kind_at))]
pub fn is_attribute(d: &[u16], y: usize) -> bool
    ensures { result ≡ is_attribute (document_of d.now) y }
{
    node_at(d, y).is_attribute()
}

/// The parent of a whole row, without the test of `node_at`, as `whole_node`.
#[tactic(auto, unfolding(crate::specs::Document::parent_at))]
pub fn parent_of(d: &[u16], y: usize) -> usize
    requires { y < length (document_of d.now) }
    ensures { result ≡ parent_at (document_of d.now) y }
{
    usize::from(whole_node(d, y).parent)
}

/// What the climb toward a row gives: whether it met that row, and how many parents it took, which is counted whether
/// it met the row or not. The check takes `met` alone.
#[derive(Clone, Copy, Debug, PartialEq, Eq)]
pub struct Climb {
    pub met: bool,
    pub parents: usize,
}

/// The ancestor test: the climb from row y toward x. It ends once it is at or below x, and where a parent is not the
/// smaller row, which no document has. It closes at `end` the subtree of each row that it leaves. It asks that y is a
/// row as `whole_node` does: the check climbs from each of its rows.
pub fn climb_toward(d: &[u16], x: usize, y: usize, end: u16, ends: &mut [u16; MAX_NODES]) -> Climb
    requires y_in_bounds { y < length (document_of d.now) }
    requires y_lt_max_nodes { y < max_nodes }
    ensures { ClimbMade (document_of d.now) x y end ends.old result.met result.parents ends.new }
{
    let mut at = y;
    let mut parents = 0;
    // By `while`: each row is read from the one before it.
    while x < at {
        let parent = parent_of(d, at);
        if at <= parent {
            return Climb {
                met: false,
                parents,
            };
        }
        ends[at] = end;
        at = parent;
        parents += 1;
    }
    Climb {
        met: x < y && at == x,
        parents,
    }
}

/// The kinds that may have no name, and those that may have one, by their numbers: with a conversion to NodeKind the
/// check of a document takes 1.2 to 1.3 times as long.
#[tactic(auto, unfolding(crate::specs::Document::kind_and_name_ok))]
pub fn kind_and_name_ok(kind: u16, name: u16) -> bool
    ensures { result ≡ kind_and_name_ok kind name }
{
    if name == 0 {
        matches!(
            kind,
            node_kind::TEXT | node_kind::COMMENT | node_kind::INSTRUCTION
        )
    } else {
        matches!(
            kind,
            node_kind::ELEMENT | node_kind::ATTRIBUTE | node_kind::INSTRUCTION
        )
    }
}

// Whether an attribute in row n + 1 stands where it must.
#[tactic(auto, unfolding(crate::specs::Document::kind_at))]
fn attribute_placed(d: &[u16], n: usize) -> bool
    requires { n < max_nodes }
    ensures { result ≡ attribute_placed (document_of d.now) n }
{
    let parent = parent_at(d, n + 1);
    node_at(d, parent).kind == node_kind::ELEMENT
        && (parent == n || is_attribute(d, n) && parent_at(d, n) == parent)
}

// Whether row `parent` is row n or an ancestor of it, which the climb from row n tells. It closes the subtrees that end
// there.
#[tactic(auto, using(crate::proofs::Rows::same_placed, crate::proofs::Rows::climb_placed))]
fn is_placed(d: &[u16], parent: usize, n: usize, ends: &mut [u16; MAX_NODES]) -> bool
    requires n_in_bounds { n < length (document_of d.now) }
    requires n_lt_max_nodes { n < max_nodes }
    ensures { Placed (document_of d.now) parent n ends.old result ends.new }
{
    let end = n + 1;
    parent == n || climb_toward(d, parent, n, end as u16, ends).met
}

// Whether row n + 1 is as it must be; a parent's kind is the root's or the next one, an element's. It closes the
// subtrees that end before it.
#[tactic(auto, unfolding(crate::specs::Document::kind_at, crate::specs::Document::name_at))]
fn later_row_ok(d: &[u16], n: usize, ends: &mut [u16; MAX_NODES]) -> bool
    requires n_in_bounds { suc n < length (document_of d.now) }
    requires n_lt_max_nodes { n < max_nodes }
    ensures value { result ≡ row_ok_by climb_met (document_of d.now) (suc n) }
    ensures ends_after { ends.new ≡ closed_before (document_of d.now) (suc n) ends.old }
{
    let node = whole_node(d, n + 1);
    let parent = parent_of(d, n + 1);
    is_placed(d, parent, n, ends)
        && matches!(
            whole_node(d, parent).kind,
            node_kind::ROOT | node_kind::ELEMENT
        )
        && kind_and_name_ok(node.kind, node.name)
        && (!node.is_attribute() || attribute_placed(d, n))
}

// Whether row 0 is as it must be, which is as what stands past the last row.
fn root_ok(d: &[u16]) -> bool
    ensures { result ≡ row_ok_by climb_met (document_of d.now) 0 }
{
    node_at(d, 0) == NO_NODE
}

// The first bad row, if there is one; an incomplete row is. If there is none, every subtree that ends before the last
// row is closed. Row 0 is checked before the loop: with it inside the check takes 1.2 to 1.3 times as long.
fn first_bad_row(d: &[u16], ends: &mut [u16; MAX_NODES]) -> Option<usize>
    requires { length (document_of d.now) ≤ max_nodes }
    ensures { FirstBad d.now ends.old result ends.new }
{
    if !root_ok(d) {
        return Some(0);
    }
    let n = node_count(d);
    for i in 1..n {
        if !later_row_ok(d, i - 1, ends) {
            return Some(i);
        }
    }
    if d.len() % NODE_WIDTH == 0 {
        None
    } else {
        Some(n)
    }
}

/// The check, and where the subtree of each row ends, in one pass over the rows; the error is the value of refusal 8.
/// What the ends are past the last row is left open.
pub fn check_document(d: &[u16]) -> Result<[u16; MAX_NODES], u16>
    ensures { DocumentChecked d.now result }
{
    let n = d.len().div_ceil(NODE_WIDTH);
    if n == 0 {
        return Err(0);
    }
    if MAX_NODES < n {
        return Err(MAX_NODES as u16);
    }
    let mut ends = [n as u16; MAX_NODES];
    match first_bad_row(d, &mut ends) {
        Some(bad) => Err(bad as u16),
        None => Ok(ends),
    }
}
