// Tables of rows lent as 16-bit numbers, four a row: what the fields of a row must be, its nesting, the search for an
// equal row, and rows that are put and kept. Notes of what a search found of rows.
// Numbers, and no slices of rows: C lends them so, and a table may end in an incomplete row, which is no row.
#![tactic(auto)]

mod kept;

ghost use Rattle.std.specs.Prelude.{◌≡◌, ◌↔◌, IsTrue, Some, None, cond, leb, ◌+◌, ◌≤◌};
ghost use Rattle.std.specs.Prelude.{map, length, get_or, set};
ghost use Rattle.terms.specs.Row.{row_at, row_numbers, row_of_numbers, table_of, max_rows, find};
ghost use Rattle.terms.specs.Fields.{is_path, is_qualifier, fields_of, held_path, held_qualifier, field_ok, bad_place};
ghost use Rattle.terms.specs.Nesting.{operand_nesting, nesting_by, nesting};
ghost use Rattle.terms.specs.private.Kept.{Nestings};
ghost use Rattle.terms.specs.represent.RowTypes.{row_of, field_of, fields_in, KindIs, RowIs, FoundIs};
ghost use Rattle.common.specs.represent.Refusal.{RefusedAt};
ghost use Rattle.common.specs.declared.refusal.Refusal.TheVariants.{BadField};

use common::Refusal;
use common::axis::Axis;
use common::node_test::NodeTest;
use common::row_kind::RowKind;
use kept::nesting_kept;
pub use kept::{KeptRows, SLOTS};

/// The most rows of a table. Arrays of what is kept or noted of each row are this long: fixed memory without a heap. A
/// count beside one, or the table, says how much of it is in use.
pub const MAX_ROWS: usize = 1024;

/// The deepest nesting of a row.
pub const MAX_NESTING: u16 = 32;

/// How many numbers a row has.
pub const ROW_WIDTH: usize = 4;

/// How many numbers a table with room for all rows has.
pub const TABLE_NUMBERS: usize = ROW_WIDTH * MAX_ROWS;

#[derive(Clone, Copy, PartialEq, Eq, Debug)]
pub struct Row {
    pub kind: u16,
    pub a: u16,
    pub b: u16,
    pub c: u16,
}

// What the definitions have past the end of a table: the void path, whose fields are unused.
const NO_ROW: Row = Row {
    kind: RowKind::Void as u16,
    a: 0,
    b: 0,
    c: 0,
};

/// What a field of a row must be.
#[derive(Clone, Copy)]
pub enum Field {
    Unused,
    Axis,
    Test,
    Name,
    Path,
    Qualifier,
}

impl Row {
    /// Its kind; none of a number that no kind has, which a row that a caller lends may have.
    pub fn read_kind(self) -> Option<RowKind>
        ensures { KindIs result (row_of self).kind }
    {
        RowKind::try_from(self.kind).ok()
    }

    #[tactic(auto, unfolding(crate::specs::Fields::is_path))]
    pub fn is_path(self) -> bool
        ensures { result ≡ is_path (row_of self) }
    {
        self.read_kind().is_some_and(|kind| kind.is_path())
    }

    #[tactic(auto, unfolding(crate::specs::Fields::is_qualifier))]
    pub fn is_qualifier(self) -> bool
        ensures { result ≡ is_qualifier (row_of self) }
    {
        self.read_kind().is_some_and(|kind| !kind.is_path())
    }
}

impl From<[u16; ROW_WIDTH]> for Row {
    ghost from_gives = { λ numbers row. row_of row ≡ row_of_numbers numbers };

    fn from([kind, a, b, c]: [u16; ROW_WIDTH]) -> Row {
        Row { kind, a, b, c }
    }
}

impl From<Row> for [u16; ROW_WIDTH] {
    ghost from_gives = { λ row numbers. numbers ≡ row_numbers (row_of row) };

    fn from(row: Row) -> [u16; ROW_WIDTH] {
        [row.kind, row.a, row.b, row.c]
    }
}

/// The rows, each as its numbers. `as_chunks` is what rows, steps and points share; each says what its numbers are.
#[tactic(auto, using(crate::proofs::LentRows::rows_by_four))]
pub fn whole_rows(rows: &[u16]) -> &[[u16; ROW_WIDTH]]
    ensures { map row_of_numbers result.now ≡ table_of rows.now }
{
    rows.as_chunks().0
}

pub fn row_count(rows: &[u16]) -> usize
    ensures { result ≡ length (table_of rows.now) }
{
    whole_rows(rows).len()
}

/// Row i.
pub fn get_row(rows: &[u16], i: usize) -> Option<Row>
    ensures { RowIs result (table_of rows.now) i }
{
    whole_rows(rows).get(i).map(|&numbers| Row::from(numbers))
}

/// The same; `0 0 0 0` past the last row, with which the definitions of terms and steps go on.
pub fn row_at(rows: &[u16], i: usize) -> Row
    ensures { row_of result ≡ row_at (table_of rows.now) i }
{
    get_row(rows, i).unwrap_or(NO_ROW)
}

/// Whether x is the number of a row that is a path. A function for each sort: each has a definition of its own, and
/// what they share is `get_row`.
#[tactic(auto, unfolding(crate::specs::Fields::held_path))]
pub fn is_held_path(rows: &[u16], x: u16) -> bool
    ensures { result ≡ held_path (table_of rows.now) x }
{
    get_row(rows, usize::from(x)).is_some_and(|row| row.is_path())
}

/// Whether x is the number of a row that is a qualifier.
#[tactic(auto, unfolding(crate::specs::Fields::held_qualifier))]
pub fn is_held_qualifier(rows: &[u16], x: u16) -> bool
    ensures { result ≡ held_qualifier (table_of rows.now) x }
{
    get_row(rows, usize::from(x)).is_some_and(|row| row.is_qualifier())
}

/// What the fields a, b and c of a row of that kind must be. Of any number, as a row that is lent may have it: of one
/// that no kind has, no field is used.
#[tactic(auto, unfolding(crate::specs::Fields::fields_of))]
pub fn fields_of(kind: u16) -> (Field, Field, Field)
    ensures { fields_in result.0 result.1 result.2 ≡ fields_of kind }
{
    match RowKind::try_from(kind) {
        Ok(RowKind::Step) => (Field::Axis, Field::Test, Field::Name),
        Ok(RowKind::Union | RowKind::Composition | RowKind::Inclusion) => {
            (Field::Path, Field::Path, Field::Unused)
        }
        Ok(RowKind::Filter) => (Field::Path, Field::Qualifier, Field::Unused),
        Ok(RowKind::Not) => (Field::Qualifier, Field::Unused, Field::Unused),
        Ok(RowKind::And | RowKind::Or) => (Field::Qualifier, Field::Qualifier, Field::Unused),
        Ok(RowKind::Void | RowKind::Root | RowKind::True | RowKind::False) | Err(_) => {
            (Field::Unused, Field::Unused, Field::Unused)
        }
    }
}

// Whether x is what its place asks, in a row whose test is t.
#[tactic(auto, unfolding(crate::specs::Fields::field_ok))]
fn field_ok(rows: &[u16], field: Field, x: u16, t: u16) -> bool
    ensures { result ≡ field_ok (table_of rows.now) (field_of field) x t }
{
    match field {
        Field::Unused => x == 0,
        Field::Axis => Axis::try_from(x).is_ok(),
        Field::Test => NodeTest::try_from(x).is_ok(),
        Field::Name => match NodeTest::try_from(t) {
            Ok(NodeTest::Name | NodeTest::Target) => 1 <= x,
            _ => x == 0,
        },
        Field::Path => is_held_path(rows, x),
        Field::Qualifier => is_held_qualifier(rows, x),
    }
}

/// Refusal 2, with the first place, 1 to 3, whose field is bad.
#[tactic(auto, unfolding(crate::specs::Fields::bad_place))]
pub fn check_fields(rows: &[u16], row: Row) -> Result<(), Refusal>
    ensures { RefusedAt BadField (bad_place (table_of rows.now) (row_of row)) result }
{
    let (first, second, third) = fields_of(row.kind);
    if !field_ok(rows, first, row.a, row.b) {
        Err(Refusal::BadField(1))
    } else if !field_ok(rows, second, row.b, row.b) {
        Err(Refusal::BadField(2))
    } else if !field_ok(rows, third, row.c, row.b) {
        Err(Refusal::BadField(3))
    } else {
        Ok(())
    }
}

/// The number of the first row that is `row`.
pub fn find_row(rows: &[u16], row: Row) -> Option<usize>
    ensures { FoundIs result (find (table_of rows.now) (row_of row)) (length (table_of rows.now)) }
{
    // Field by field: with `==` of rows a selector's text took 1.4 to 2 times as long to read.
    whole_rows(rows).iter().position(|&[kind, a, b, c]| {
        (kind == row.kind) & (a == row.a) & (b == row.b) & (c == row.c)
    })
}

// Entry x, 0 past the last one: the nesting of a row that isn't there adds nothing.
fn entry_at(entries: &[u16], x: u16) -> u16
    ensures { result ≡ get_or entries.now x 0 }
{
    entries.get(usize::from(x)).copied().unwrap_or(0)
}

// The nesting of the operand x, by the nestings of the rows; 0, which adds nothing, for a field that is no operand.
#[tactic(auto, unfolding(crate::specs::Nesting::operand_nesting))]
fn operand_nesting(nestings: &[u16], field: Field, x: u16) -> u16
    ensures { result ≡ operand_nesting nestings.now (field_of field) x }
{
    match field {
        Field::Path | Field::Qualifier => entry_at(nestings, x),
        Field::Unused | Field::Axis | Field::Test | Field::Name => 0,
    }
}

// The nesting of the deeper operand, by the nestings of the rows before; 0 if there is no operand, which adds nothing.
#[tactic(auto, unfolding(crate::specs::Nesting::nesting_by))]
pub(crate) fn deeper_operand(nestings: &[u16], row: Row) -> u16
    ensures { result + 1 ≡ nesting_by nestings.now (row_of row) }
{
    let (first, second, _) = fields_of(row.kind);
    let x = operand_nesting(nestings, first, row.a);
    let y = operand_nesting(nestings, second, row.b);
    x.max(y)
}

// The nestings of the rows, in order, each by those before it, from the start of a table.
#[tactic(auto, unfolding(crate::specs::Nesting::nestings, crate::specs::Row::entries_from))]
fn nestings(rows: &[u16]) -> [u16; MAX_ROWS]
    requires { length (table_of rows.now) ≤ max_rows }
    ensures { Nestings (table_of rows.now) result }
{
    let mut table = [0; MAX_ROWS];
    // By index: each nesting is made of those before it in the same array.
    for i in 0..row_count(rows) {
        table[i] = deeper_operand(&table[..i], row_at(rows, i)) + 1;
    }
    table
}

/// The nesting of a row whose operands are among the rows, of which nothing is kept; none where these are more than
/// `MAX_ROWS`.
pub fn nesting_of(rows: &[u16], row: Row) -> Option<u16>
    ensures { result ≡ cond (leb (length (table_of rows.now)) max_rows)
        (Some (nesting (table_of rows.now) (row_of row))) None }
{
    if MAX_ROWS < row_count(rows) {
        None
    } else {
        Some(nesting_kept(rows, &nestings(rows), row))
    }
}

/// Whether it is noted that a search found row j for row i: at i stands j. That notes are true of the rows stands in
/// the contracts (`Noted` of matching).
pub fn is_noted(noted: &[Option<u16>], i: u16, j: u16) -> bool
    ensures { IsTrue result ↔ (get_or noted.now i None ≡ Some j) }
{
    noted.get(usize::from(i)) == Some(&Some(j))
}

/// Notes it, where the table of notes reaches to i.
pub fn note(noted: &mut [Option<u16>], i: u16, j: u16)
    ensures { noted.new ≡ set noted.old i (Some j) }
{
    // By index: of a slice's `get_mut` a proof knows the length afterwards, and no element.
    let at = usize::from(i);
    if at < noted.len() {
        noted[at] = Some(j);
    }
}
