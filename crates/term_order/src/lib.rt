// The order of terms and of bundles, on the lent rows and steps of two sessions.
#![tactic(auto)]

ghost use Rattle.std.specs.Prelude.{◌≡◌, cond, take};
ghost use Rattle.terms.specs.Row.{row_at, table_of};
ghost use Rattle.terms.specs.Terms.{terms, term_at};
ghost use Rattle.terms.specs.represent.RowTypes.{row_of, field_of};
ghost use Rattle.common.specs.represent.Numbers.{row_number};
ghost use Rattle.calls.specs.represent.Tables.{book_held};
ghost use Rattle.calls.specs.represent.Answers.{step_of, order_answer_of};
ghost use Rattle.term_order.specs.TermOrder.{field_order, term_order};
ghost use Rattle.term_order.specs.BundleOrder.{term_step, step_order};
ghost use Rattle.term_order.specs.OrderCall.{order_answer, bundle_order_answer};
ghost use Rattle.term_order.specs.private.FieldsCompared.{term_kind, field_as, is_operand, number_as, Noted, Compared};

use calls::{Held, Step, whole_steps};
use common::Refusal;
use common::row_kind::RowKind;
use std::cmp::Ordering;
use terms::{Field, Row, fields_of, is_noted, note, row_at};

// The kind of a row's term: a row of no kind is read as the void path. Kinds are ordered by their numbers.
fn term_kind(row: Row) -> u16
    ensures { result ≡ term_kind (row_of row).kind }
{
    row.read_kind().unwrap_or(RowKind::Void).into()
}

// The number x in a field of row i.
#[derive(Clone, Copy)]
struct Entry<'a> {
    rows: &'a [u16],
    i: u16,
    field: Field,
    x: u16,
}

impl<'a> Entry<'a> {
    // Whether it is the number of an earlier row, as the field asks.
    #[tactic(auto, unfolding(crate::specs::private::FieldsCompared::is_operand))]
    fn is_operand(self) -> bool
        ensures { result ≡ is_operand (table_of self.entry.rows.now) self.entry.i (field_of self.entry.field)
            self.entry.x }
    {
        let row = row_at(self.rows, usize::from(self.x));
        match self.field {
            Field::Path => self.x < self.i && row.is_path(),
            Field::Qualifier => self.x < self.i && row.is_qualifier(),
            Field::Unused | Field::Axis | Field::Test | Field::Name => false,
        }
    }

    // The kind of its row where it is such an operand, else `none`.
    fn kind_or(self, none: RowKind) -> u16
        ensures { result ≡ cond (is_operand (table_of self.entry.rows.now) self.entry.i (field_of self.entry.field)
            self.entry.x) (row_at (table_of self.entry.rows.now) self.entry.x).kind (row_number none) }
    {
        if self.is_operand() {
            row_at(self.rows, usize::from(self.x)).kind
        } else {
            none.into()
        }
    }

    // What stands for it where a field is compared as a number.
    #[tactic(auto, unfolding(crate::specs::private::FieldsCompared::number_as))]
    fn number(self) -> u16
        ensures { result ≡ number_as (table_of self.entry.rows.now) self.entry.i (field_of self.entry.field)
            self.entry.x }
    {
        match self.field {
            Field::Unused => 0,
            Field::Axis | Field::Test | Field::Name => self.x,
            Field::Path => self.kind_or(RowKind::Void),
            Field::Qualifier => self.kind_or(RowKind::False),
        }
    }
}

// The rows of two sessions.
#[derive(Clone, Copy)]
struct Tables<'a> {
    left: &'a [u16],
    right: &'a [u16],
}

impl<'a> Tables<'a> {
    // A field of two rows of one kind: the numbers at its place.
    #[cycle(order_fields_order_rows)]
    fn order_fields(
        self,
        rows: (u16, u16),
        fields: (u16, u16),
        field: Field,
        noted: &mut [Option<u16>],
    ) -> Ordering
        requires { Noted (table_of self.left.now) (table_of self.right.now) noted.old }
        ensures { Compared (table_of self.entry.left.now) (table_of self.entry.right.now)
            (field_order (field_as (terms (take rows.0 (table_of self.entry.left.now))) (field_of field) fields.0)
            (field_as (terms (take rows.1 (table_of self.entry.right.now))) (field_of field) fields.1)) result
            noted.new }
    {
        let left = Entry {
            rows: self.left,
            i: rows.0,
            field,
            x: fields.0,
        };
        let right = Entry {
            rows: self.right,
            i: rows.1,
            field,
            x: fields.1,
        };
        if left.is_operand() && right.is_operand() {
            return self.order_rows(fields, noted);
        }
        left.number().cmp(&right.number())
    }

    // The terms of two rows: first by kind, then by fields from the left. Operands are earlier rows; a pair that is
    // found equal is noted, so that it is compared once.
    #[cycle(order_fields_order_rows)]
    fn order_rows(self, rows: (u16, u16), noted: &mut [Option<u16>]) -> Ordering
        requires { Noted (table_of self.left.now) (table_of self.right.now) noted.old }
        ensures { Compared (table_of self.entry.left.now) (table_of self.entry.right.now)
            (term_order (term_at (table_of self.entry.left.now) rows.0)
            (term_at (table_of self.entry.right.now) rows.1)) result noted.new }
    {
        let (i, j) = rows;
        if is_noted(noted, i, j) {
            return Ordering::Equal;
        }
        let x = row_at(self.left, usize::from(i));
        let y = row_at(self.right, usize::from(j));
        let kind = term_kind(x);
        let other = term_kind(y);
        let kinds = kind.cmp(&other);
        if kinds.is_ne() {
            return kinds;
        }
        let (a, b, c) = fields_of(kind);
        let first = self.order_fields(rows, (x.a, y.a), a, noted);
        if first.is_ne() {
            return first;
        }
        let second = self.order_fields(rows, (x.b, y.b), b, noted);
        if second.is_ne() {
            return second;
        }
        let third = self.order_fields(rows, (x.c, y.c), c, noted);
        if third.is_eq() {
            note(noted, i, j);
        }
        third
    }

    // The steps p and q: rule first, then left and right.
    fn order_steps(self, p: Step, q: Step, noted: &mut [Option<u16>]) -> Ordering
        requires { Noted (table_of self.left.now) (table_of self.right.now) noted.old }
        ensures { Compared (table_of self.entry.left.now) (table_of self.entry.right.now)
            (step_order (term_step (table_of self.entry.left.now) (step_of p))
            (term_step (table_of self.entry.right.now) (step_of q))) result noted.new }
    {
        let rules = p.rule.cmp(&q.rule);
        if rules.is_ne() {
            return rules;
        }
        let lefts = self.order_rows((p.left, q.left), noted);
        if lefts.is_ne() {
            return lefts;
        }
        self.order_rows((p.right, q.right), noted)
    }
}

/// Row i of the left rows and row j of the right ones: their order as terms, or which one is not held.
pub fn order_on(left: &[u16], i: u16, right: &[u16], j: u16) -> Result<Ordering, Refusal>
    ensures { order_answer_of result
        ≡ order_answer (table_of left.now) i (table_of right.now) j }
{
    if terms::row_count(left) <= usize::from(i) {
        return Err(Refusal::BadSide(1));
    }
    if terms::row_count(right) <= usize::from(j) {
        return Err(Refusal::BadSide(2));
    }
    let mut noted = [None; terms::MAX_ROWS];
    let tables = Tables { left, right };
    Ok(tables.order_rows((i, j), &mut noted))
}

/// The bundles of two sessions: their steps in turn.
pub fn bundle_order_on<'a>(left: Held<'a>, right: Held<'a>) -> Result<Ordering, Refusal>
    ensures { order_answer_of result ≡ bundle_order_answer (book_held left.entry) (book_held right.entry) }
{
    let tables = Tables {
        left: left.rows,
        right: right.rows,
    };
    let mut noted = [None; terms::MAX_ROWS];
    let ps = whole_steps(left.steps);
    let qs = whole_steps(right.steps);
    for (p, q) in ps.iter().zip(qs) {
        let order = tables.order_steps(Step::from(*p), Step::from(*q), &mut noted);
        if order.is_ne() {
            return Ok(order);
        }
    }
    Ok(ps.len().cmp(&qs.len()))
}
