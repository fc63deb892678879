// The way back of a held path, built by recursion on the row number: the rows that it needs are put after those held,
// operands first, and a row that is held already is used again. It is judged on the rows' numbers, as `matching`
// recognises one.
#![tactic(auto)]

ghost use Rattle.std.specs.Prelude.{◌≡◌, ◌≤◌, ◌*◌, None, length, get_or, take};
ghost use Rattle.terms.specs.Row.{row, row_width, table_of, max_rows};
ghost use Rattle.terms.specs.Nesting.{nestings};
ghost use Rattle.terms.specs.represent.RowTypes.{row_of};
ghost use Rattle.selector_grammar.specs.Denotes.{put};
ghost use Rattle.common.specs.RowKinds.{step_row};
ghost use Rattle.reversing.specs.private.RowsBack.{reversal_of, above, part_nesting, reversal_nesting, part_put};
ghost use Rattle.reversing.specs.private.RowsBack.{filter_put};
ghost use Rattle.reversing.specs.private.RowsBack.{back_puts, back_put};
ghost use Rattle.reversing.specs.private.RowsPut.{part_of, reversal_in, PutMet, Noted, BackPut, BackNestings};
ghost use Rattle.reversing.specs.private.RowsPut.{rows_of, NothingNoted, WayBackMade};

use common::row_kind::RowKind;
use common::{Refusal, axis, node_test, row_kind};
use terms::{KeptRows, MAX_NESTING, MAX_ROWS, ROW_WIDTH, Row, TABLE_NUMBERS};

// A part of a way back: that of an earlier row, a step, or `.[f]` with the qualifier of row f.
#[derive(Clone, Copy)]
enum Part {
    Back(u16),
    Step(Row),
    Filter(u16),
}

// Of what a way back is made: a row of that kind over two parts. The kind is a number, as in a row.
#[derive(Clone, Copy)]
struct Reversal {
    kind: u16,
    left: Part,
    right: Part,
}

// The row of a step.
fn step_row(a: u16, test: u16, name: u16) -> Row
    ensures { row_of result ≡ row step_row a test name }
{
    Row {
        kind: row_kind::STEP,
        a,
        b: test,
        c: name,
    }
}

// Of what the way back of the row is made, if it has one.
#[tactic(auto, unfolding(crate::specs::private::RowsBack::reversal_of))]
fn reversal_of(x: Row) -> Option<Reversal>
    ensures { reversal_in result ≡ reversal_of (row_of x) }
{
    let (kind, left, right) = match x.read_kind()? {
        RowKind::Step => {
            let back = matching::opposite_axis(x.a)?;
            let first = step_row(axis::SELF, x.b, x.c);
            let second = step_row(back, node_test::NODE, 0);
            (row_kind::COMPOSITION, Part::Step(first), Part::Step(second))
        }
        RowKind::Union => (row_kind::UNION, Part::Back(x.a), Part::Back(x.b)),
        // p's is last
        RowKind::Composition => (row_kind::COMPOSITION, Part::Back(x.b), Part::Back(x.a)),
        RowKind::Filter => (row_kind::COMPOSITION, Part::Filter(x.b), Part::Back(x.a)),
        _ => return None,
    };
    Some(Reversal { kind, left, right })
}

// Entry i, 0 past the last one.
fn entry(entries: &[u16], i: u16) -> u16
    ensures { result ≡ get_or entries.now i 0 }
{
    entries.get(usize::from(i)).copied().unwrap_or(0)
}

// The nesting above those of two operands; all that are too deep are counted as one.
fn above(x: u16, y: u16) -> u16
    ensures { result ≡ above x y }
{
    x.max(y).min(MAX_NESTING) + 1
}

// The nesting of a part, by those of the rows and of their ways back; 0 where there is no way back.
#[tactic(auto, unfolding(crate::specs::private::RowsBack::part_nesting))]
fn part_nesting(rows: &[u16], backs: &[u16], part: Part) -> u16
    ensures { result ≡ part_nesting rows.now backs.now (part_of part) }
{
    match part {
        Part::Back(p) => entry(backs, p),
        Part::Step(_) => 1,
        Part::Filter(f) => above(1, entry(rows, f)),
    }
}

// The nesting of the way back of a row, by the same; 0 where it has none.
#[tactic(auto, unfolding(crate::specs::private::RowsBack::reversal_nesting))]
fn back_nesting(rows: &[u16], backs: &[u16], x: Row) -> u16
    ensures { result ≡ reversal_nesting rows.now backs.now (reversal_of (row_of x)) }
{
    let Some(made) = reversal_of(x) else {
        return 0;
    };
    let left = part_nesting(rows, backs, made.left);
    let right = part_nesting(rows, backs, made.right);
    if left == 0 || right == 0 {
        return 0;
    }
    above(left, right)
}

// Those of all rows, in order, each by those before it; `kept` are the rows' own.
#[tactic(auto, unfolding(crate::specs::private::RowsBack::back_nestings, terms::specs::Row::entries_from))]
fn back_nestings(rows: &[u16], kept: &[u16]) -> [u16; MAX_ROWS]
    requires few { length (table_of rows.now) ≤ max_rows }
    requires nested { kept.now ≡ nestings (table_of rows.now) }
    ensures { BackNestings (table_of rows.now) result }
{
    let mut table = [0; MAX_ROWS];
    // By index: each is made of those before it in the same array.
    for i in 0..terms::row_count(rows) {
        table[i] = back_nesting(kept, &table[..i], terms::row_at(rows, i));
    }
    table
}

// A row that is held is used again; else it is put after them, where there is room.
fn put(held: &mut KeptRows, row: Row) -> Option<u16>
    ensures { PutMet (λ rs. put rs (row_of row)) (held.old.numbers, held.old.count)
        (held.new.numbers, held.new.count) result }
{
    if let Some(i) = held.find(row) {
        return Some(i as u16);
    }
    let n = held.count;
    if MAX_ROWS <= n {
        return None;
    }
    held.put(row);
    Some(n as u16)
}

// The rows of `.[f]`.
#[tactic(auto, unfolding(crate::specs::private::RowsBack::filter_put))]
fn put_filter(held: &mut KeptRows, f: u16) -> Option<u16>
    ensures { PutMet (filter_put f) (held.old.numbers, held.old.count) (held.new.numbers, held.new.count) result }
{
    let dot = put(held, step_row(axis::SELF, node_test::NODE, 0))?;
    put(
        held,
        Row {
            kind: row_kind::FILTER,
            a: dot,
            b: f,
            c: 0,
        },
    )
}

// What a proof knows of an array that is lent by itself, and not of one within another type.
fn whole_numbers(numbers: &[u16; TABLE_NUMBERS])
    ensures { length numbers.now ≡ row_width * max_rows }
{}

// Before any way back is noted.
fn no_notes() -> [Option<u16>; MAX_ROWS]
    ensures { NothingNoted result }
{
    [None; MAX_ROWS]
}

// What is noted for row i.
fn noted_at(noted: &[Option<u16>], i: u16) -> Option<u16>
    ensures { result ≡ get_or noted.now i None }
{
    noted.get(usize::from(i)).copied().unwrap_or(None)
}

// The rows of a part of the way back of row i.
#[cycle(reversing)]
fn put_part(
    held: &mut KeptRows,
    rows: &[u16],
    i: u16,
    part: Part,
    noted: &mut [Option<u16>],
) -> Option<u16>
    requires { Noted (table_of rows.now) (rows_of (held.old.numbers, held.old.count)) noted.old }
    ensures { BackPut (table_of rows.now) (part_put (take i (back_puts (table_of rows.now))) (part_of part))
        (held.old.numbers, held.old.count) (held.new.numbers, held.new.count) result noted.new }
{
    match part {
        Part::Back(p) if p < i => put_back(held, rows, p, noted),
        Part::Back(_) => Some(0),
        Part::Step(row) => put(held, row),
        Part::Filter(f) => put_filter(held, f),
    }
}

// The rows of the way back of row i, with those of the rows before it, which are its operands. What is put is noted, so
// that a row is reversed once. `rows` are those held at first: a row that is put later has no such operand.
#[cycle(reversing)]
fn put_back(held: &mut KeptRows, rows: &[u16], i: u16, noted: &mut [Option<u16>]) -> Option<u16>
    requires { Noted (table_of rows.now) (rows_of (held.old.numbers, held.old.count)) noted.old }
    ensures { BackPut (table_of rows.now) (back_put (table_of rows.now) i)
        (held.old.numbers, held.old.count) (held.new.numbers, held.new.count) result noted.new }
{
    if let Some(j) = noted_at(noted, i) {
        return Some(j);
    }
    let Some(made) = reversal_of(terms::row_at(rows, usize::from(i))) else {
        return Some(0);
    };
    let left = put_part(held, rows, i, made.left, noted)?;
    let right = put_part(held, rows, i, made.right, noted)?;
    let row = put(
        held,
        Row {
            kind: made.kind,
            a: left,
            b: right,
            c: 0,
        },
    )?;
    terms::note(noted, i, row);
    Some(row)
}

/// Puts the rows that the way back of the path in row i needs, and gives its row. A refused call leaves the rows as
/// they were; then nothing is kept of them.
pub fn way_back(held: &mut KeptRows, i: u16) -> Result<u16, Refusal>
    ensures { WayBackMade (held.old.numbers, held.old.count) i (held.new.numbers, held.new.count) result }
{
    let before = held.numbers;
    let count = held.count;
    let rows = &before[..ROW_WIDTH * count];
    if !terms::is_held_path(rows, i) {
        return Err(Refusal::BadSide(1));
    }
    let backs = back_nestings(rows, &held.nestings[..count]);
    let nesting = entry(&backs[..count], i);
    if nesting == 0 {
        return Err(Refusal::NotYielded);
    }
    if MAX_NESTING < nesting {
        return Err(Refusal::TooDeep);
    }
    let mut noted = no_notes();
    match put_back(held, rows, i, &mut noted) {
        Some(row) => {
            whole_numbers(&held.numbers);
            Ok(row)
        }
        None => {
            held.count = 0;
            held.numbers = before;
            Err(Refusal::TermsFull)
        }
    }
}
