// Term calls on lent rows: their answers, and the row that is put after the others.
ghost use Rattle.std.specs.Prelude.{◌≡◌, ◌≤◌, length};
ghost use Rattle.terms.specs.Row.{table_of, max_rows, find};
ghost use Rattle.terms.specs.Nesting.{nesting};
ghost use Rattle.terms.specs.represent.RowTypes.{row_of, FoundIs};
ghost use Rattle.calls.specs.TermCall.{term_answer};
ghost use Rattle.calls.specs.represent.Answers.{answer_of};
ghost use Rattle.calls.specs.represent.Points.{cleared};
ghost use Rattle.call_answers.specs.private.Placed.{TermPlaced, TermKept};

use calls::first_rows;
use common::Refusal;
use terms::{KeptRows, Row, TABLE_NUMBERS};

// The answer of a term call on the rows, by the row's nesting and the search for an equal row: the first refusal that
// applies, or the new row's number.
#[tactic(auto, unfolding(calls::specs::TermCall::term_answer))]
fn term_answer(rows: &[u16], depth: u16, found: Option<usize>, row: Row) -> Result<u16, Refusal>
    requires { (length (table_of rows.now) ≤ max_rows) × (depth ≡ nesting (table_of rows.now) (row_of row))
        × FoundIs found (find (table_of rows.now) (row_of row)) (length (table_of rows.now)) }
    ensures { answer_of result ≡ term_answer (table_of rows.now) (row_of row) }
{
    row.read_kind().ok_or(Refusal::BadKind)?;
    terms::check_fields(rows, row)?;
    if terms::MAX_NESTING < depth {
        return Err(Refusal::TooDeep);
    }
    if let Some(i) = found {
        return Err(Refusal::AlreadyHeld(i as u16));
    }
    let count = terms::row_count(rows);
    if terms::MAX_ROWS <= count {
        return Err(Refusal::TermsFull);
    }
    Ok(count as u16)
}

// The same on rows of which nothing is kept.
fn judge_term(rows: &[u16], row: Row) -> Result<u16, Refusal>
    requires { length (table_of rows.now) ≤ max_rows }
    ensures { answer_of result ≡ term_answer (table_of rows.now) (row_of row) }
{
    // The rows are no more than `nesting_of` takes.
    let depth = terms::nesting_of(rows, row).unwrap();
    let found = terms::find_row(rows, row);
    term_answer(rows, depth, found, row)
}

/// A term call on the first n rows of a table, of which nothing is kept: the answer; where the row is held, it is put
/// after them.
#[tactic(auto, using(calls::proofs::Tables::few_rows))]
pub fn term_in_place(rows: &mut [u16; TABLE_NUMBERS], n: usize, row: Row) -> Result<u16, Refusal>
    ensures { TermPlaced rows.old n (row_of row) rows.new result }
{
    let number = judge_term(first_rows(rows, n), row)?;
    common::put_record(rows, n, row.into());
    Ok(number)
}

/// A term call on rows of which their nestings and a filter are kept: the answer; where the row is held, it is put
/// after them.
pub fn term_kept(held: &mut KeptRows, row: Row) -> Result<u16, Refusal>
    ensures { TermKept held.old.numbers held.old.count (row_of row) held.new.numbers held.new.count result }
{
    let depth = held.nesting_of(row);
    let found = held.find(row);
    let number = term_answer(held.rows(), depth, found, row)?;
    held.put(row);
    Ok(number)
}

/// Clears the numbers of the table from place `from` on. Nothing is kept of the rows.
pub fn clear_from(held: &mut KeptRows, from: usize)
    ensures { held.new.numbers ≡ cleared from held.old.numbers }
{
    held.count = 0;
    crate::point::clear(&mut held.numbers, from);
}

/// Keeps the first n rows of the table, of which some may be kept already. It asks for as many as a table has room for:
/// a session counts no more.
pub fn keep_first(held: &mut KeptRows, n: usize)
    requires { n ≤ max_rows }
    ensures { (held.new.numbers ≡ held.old.numbers) × (held.new.count ≡ n) }
{
    if n < held.count {
        held.count = 0;
    }
    while held.count < n {
        let there = terms::row_at(&held.numbers, held.count);
        held.put(there);
    }
}
