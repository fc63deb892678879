// The way back of a path, judged on the rows' numbers.
ghost use Rattle.std.specs.Prelude.{◌≡◌};
ghost use Rattle.terms.specs.Row.{table_of};
ghost use Rattle.terms.specs.represent.RowTypes.{row_of};
ghost use Rattle.rules.specs.Order.{is_pair};
ghost use Rattle.rules.specs.WayBack.{opposites, opposite};
ghost use Rattle.matching.specs.private.RowWayBack.{is_step, is_step_back, is_filter_back, is_with_back, Noted};
ghost use Rattle.matching.specs.private.RowWayBack.{BackFound};
ghost use Rattle.matching.specs.private.MatchTypes.{axis_given, Reverses};

use crate::matcher::Sides;
use crate::order::is_pair;
use common::row_kind::RowKind;
use common::{axis, node_test, row_kind};
use terms::{Row, is_noted, note, row_at};

/// Rule 59, which the table doesn't have.
pub const WAY_BACK_RULE: u16 = 59;

// The axes of paths that have a way back, each with its opposite axis. By number, as rows have them (see `is_pair`).
const OPPOSITES: [(u16, u16); 6] = [
    (axis::SELF, axis::SELF),
    (axis::CHILD, axis::PARENT),
    (axis::DESCENDANT, axis::ANCESTOR),
    (axis::DESCENDANT_OR_SELF, axis::ANCESTOR_OR_SELF),
    (axis::FOLLOWING_SIBLING, axis::PRECEDING_SIBLING),
    (axis::PRECEDING_SIBLING, axis::FOLLOWING_SIBLING),
];

// What is seen of a row and of one that is to be its way back: that it isn't, that it is, or which operand is to have
// which for its way back. A filter has one such operand, which stands twice.
#[derive(Clone, Copy, PartialEq, Eq, Debug)]
enum Reversal {
    Never,
    Always,
    Operands(Sides, Sides),
}

// The opposite of an axis, where it has one. By a match, as `RowKind` is read: `find` in the table above would give the
// pair.
#[tactic(auto, unfolding(rules::specs::WayBack::opposite, rules::specs::WayBack::opposites, rules::specs::WayBack::lookup))]
pub fn opposite_axis(a: u16) -> Option<u16>
    ensures { axis_given result ≡ opposite a }
{
    match a {
        axis::SELF => Some(axis::SELF),
        axis::CHILD => Some(axis::PARENT),
        axis::DESCENDANT => Some(axis::ANCESTOR),
        axis::DESCENDANT_OR_SELF => Some(axis::ANCESTOR_OR_SELF),
        axis::FOLLOWING_SIBLING => Some(axis::PRECEDING_SIBLING),
        axis::PRECEDING_SIBLING => Some(axis::FOLLOWING_SIBLING),
        _ => None,
    }
}

#[tactic(auto, unfolding(rules::specs::WayBack::opposites))]
fn is_opposite(a: u16, b: u16) -> bool
    ensures { result ≡ is_pair opposites a b }
{
    is_pair(&OPPOSITES, a, b)
}

// Whether row i is a step on that axis with that test and name.
#[tactic(auto, unfolding(crate::specs::private::RowWayBack::is_step, terms::specs::Row::same_row))]
fn is_step(rows: &[u16], i: u16, a: u16, t: u16, c: u16) -> bool
    ensures { result ≡ is_step (table_of rows.now) i a t c }
{
    row_at(rows, usize::from(i))
        == Row {
            kind: row_kind::STEP,
            a,
            b: t,
            c,
        }
}

// Whether y is self::N, then the opposite axis with node(), for the step x.
#[tactic(auto, unfolding(crate::specs::private::RowWayBack::is_step_back))]
fn is_step_back(rows: &[u16], x: Row, y: Row) -> bool
    ensures { result ≡ is_step_back (table_of rows.now) (row_of x) (row_of y) }
{
    let z = row_at(rows, usize::from(y.b));
    y.kind == row_kind::COMPOSITION
        && is_step(rows, y.a, axis::SELF, x.b, x.c)
        && is_opposite(x.a, z.a)
        && is_step(rows, y.b, z.a, node_test::NODE, 0)
}

// Whether y is .[f], then a path, for x, whose qualifier is f.
#[tactic(auto, unfolding(crate::specs::private::RowWayBack::is_filter_back))]
fn is_filter_back(rows: &[u16], x: Row, y: Row) -> bool
    ensures { result ≡ is_filter_back (table_of rows.now) (row_of x) (row_of y) }
{
    let z = row_at(rows, usize::from(y.a));
    y.kind == row_kind::COMPOSITION
        && z.kind == row_kind::FILTER
        && z.b == x.b
        && is_step(rows, z.a, axis::SELF, node_test::NODE, 0)
}

// What is seen of x and of y, which is to be its way back.
fn reversal_of(rows: &[u16], x: Row, y: Row) -> Reversal
    ensures { Reverses (table_of rows.now) (row_of x) (row_of y) result }
{
    let Some(kind) = x.read_kind() else {
        return Reversal::Never;
    };
    let (p, q) = (x.a, x.b);
    let (v, w) = (y.a, y.b);
    match kind {
        RowKind::Union if y.kind == x.kind => {
            Reversal::Operands(Sides { left: p, right: v }, Sides { left: q, right: w })
        }
        // p's is last
        RowKind::Composition if y.kind == x.kind => {
            Reversal::Operands(Sides { left: q, right: v }, Sides { left: p, right: w })
        }
        RowKind::Filter if is_filter_back(rows, x, y) => {
            Reversal::Operands(Sides { left: p, right: w }, Sides { left: p, right: w })
        }
        RowKind::Step if is_step_back(rows, x, y) => Reversal::Always,
        _ => Reversal::Never,
    }
}

// Whether row j is the way back of row i. Its operands are earlier rows, and what was found is noted, so that a row is
// reversed once.
fn is_back(rows: &[u16], i: u16, j: u16, noted: &mut [Option<u16>]) -> bool
    requires { Noted (table_of rows.now) noted.old }
    ensures { BackFound (table_of rows.now) i j result noted.new }
{
    if is_noted(noted, i, j) {
        return true;
    }
    match reversal_of(
        rows,
        row_at(rows, usize::from(i)),
        row_at(rows, usize::from(j)),
    ) {
        Reversal::Never => false,
        Reversal::Always => true,
        Reversal::Operands(first, second) => {
            let found = first.left < i
                && second.left < i
                && is_back(rows, first.left, first.right, noted)
                && is_back(rows, second.left, second.right, noted);
            if found {
                note(noted, i, j);
            }
            found
        }
    }
}

/// Whether the right row is left[some w], and w is the way back of the left one; what is found on the way is noted.
/// That the notes are true is asked, as by `yields`.
#[tactic(auto, unfolding(crate::specs::private::RowWayBack::is_with_back))]
pub fn is_with_back(rows: &[u16], step: Sides, noted: &mut [Option<u16>]) -> bool
    requires { Noted (table_of rows.now) noted.old }
    ensures { (result ≡ is_with_back (table_of rows.now) step.left step.right)
        × Noted (table_of rows.now) noted.new }
{
    let y = row_at(rows, usize::from(step.right));
    let f = row_at(rows, usize::from(y.b));
    let g = row_at(rows, usize::from(f.a));
    let v = row_at(rows, usize::from(g.b));
    y.kind == row_kind::FILTER
        && y.a == step.left
        && f.kind == row_kind::NOT
        && g.kind == row_kind::INCLUSION
        && v.kind == row_kind::VOID
        && is_back(rows, step.left, g.a, noted)
}
