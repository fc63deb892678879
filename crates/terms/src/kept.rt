// A table that rows are put into one after the other, with what is kept of them: their nestings, and a filter before
// the search for an equal row.
ghost use Rattle.std.specs.Prelude.{◌≡◌, false, ◌+◌, ◌*◌, ◌≤◌, ◌<◌, length, take, replicate};
ghost use Rattle.std.proofs.lemmas.List.Edits.{sets};
ghost use Rattle.terms.specs.Row.{row_width, row_numbers, table_of, max_rows, find};
ghost use Rattle.terms.specs.Nesting.{nesting};
ghost use Rattle.terms.specs.represent.RowTypes.{row_of, FoundIs};
ghost use Rattle.terms.specs.private.Kept.{slot_count, slot_of, rows_in, Nestings, Kept};

use crate::{MAX_ROWS, ROW_WIDTH, Row, TABLE_NUMBERS, deeper_operand, find_row, row_count};

/// How many slots a filter has.
pub const SLOTS: usize = 8192;

/// The first `count` rows of the table are put. A slot of the filter that is false says that no row falls in it. Fixed
/// memory: no call can fail for want of it.
#[derive(Clone, Copy)]
pub struct KeptRows {
    pub numbers: [u16; TABLE_NUMBERS],
    pub count: usize,
    pub nestings: [u16; MAX_ROWS],
    filter: [bool; SLOTS],
    pub ghost few: { count ≤ max_rows },
    pub ghost kept: { Kept (rows_in numbers count) nestings filter },
}

// The slot that a row falls in.
#[tactic(auto, unfolding(crate::specs::private::Kept::slot_of))]
fn slot_of(row: Row) -> usize
    ensures { (result ≡ slot_of (row_of row)) × (result < slot_count) }
{
    let [kind, a, b, c] = <[u16; ROW_WIDTH]>::from(row).map(usize::from);
    (((kind * 37 + a) * 41 + b) * 43 + c) % SLOTS
}

// The nesting of a row whose operands are among the rows, by the nestings kept of these.
pub(crate) fn nesting_kept(rows: &[u16], nestings: &[u16], row: Row) -> u16
    requires { Nestings (table_of rows.now) nestings.now }
    ensures { result ≡ nesting (table_of rows.now) (row_of row) }
{
    deeper_operand(&nestings[..row_count(rows)], row) + 1
}

impl KeptRows {
    pub fn new() -> KeptRows
        ensures { (result.numbers ≡ replicate (row_width * max_rows) 0) × (result.count ≡ 0) }
    {
        KeptRows {
            numbers: [0; TABLE_NUMBERS],
            count: 0,
            nestings: [0; MAX_ROWS],
            filter: [false; SLOTS],
        }
    }

    /// The numbers of the rows.
    #[tactic(auto, using(crate::proofs::RowsKept::rows_put))]
    pub fn rows(&self) -> &[u16]
        ensures { (result.now ≡ take (row_width * self.now.count) self.now.numbers)
            × (length (table_of result.now) ≡ self.now.count) }
    {
        &self.numbers[..ROW_WIDTH * self.count]
    }

    /// The nesting of a row whose operands are among the rows.
    pub fn nesting_of(&self, row: Row) -> u16
        ensures { result ≡ nesting (rows_in self.now.numbers self.now.count) (row_of row) }
    {
        nesting_kept(self.rows(), &self.nestings, row)
    }

    /// The same as find_row; it searches only where the filter has a row in that slot.
    pub fn find(&self, row: Row) -> Option<usize>
        ensures { FoundIs result (find (rows_in self.now.numbers self.now.count) (row_of row))
            (length (rows_in self.now.numbers self.now.count)) }
    {
        if !self.filter[slot_of(row)] {
            return None;
        }
        find_row(self.rows(), row)
    }

    /// Puts a row after the rows. There is room: who puts a row has judged it, refusal 11 included.
    pub fn put(&mut self, row: Row)
        requires { self.old.count < max_rows }
        ensures { (self.new.numbers ≡ sets self.old.numbers (row_width * self.old.count) (row_numbers (row_of row)))
            × (self.new.count ≡ self.old.count + 1) }
    {
        let nesting = self.nesting_of(row);
        let n = self.count;
        self.nestings[n] = nesting;
        self.filter[slot_of(row)] = true;
        common::put_record(&mut self.numbers, n, row.into());
        self.count = n + 1;
    }
}
