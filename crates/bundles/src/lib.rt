// The text of a bundle, written from lent rows and steps.
#![tactic(auto)]

mod lent_tables;
mod writer;

ghost use Rattle.std.specs.Prelude.{◌≡◌, ◌++◌, ◌*◌, ◌≤◌, length, drop};
ghost use Rattle.lines.specs.Written.{decimal};
ghost use Rattle.terms.specs.Row.{max_rows, table_of};
ghost use Rattle.terms.specs.represent.RowTypes.{row_of};
ghost use Rattle.calls.specs.Book.{max_steps};
ghost use Rattle.calls.specs.represent.Answers.{step_of};
ghost use Rattle.calls.specs.represent.Tables.{row_width, step_width, steps_of};
ghost use Rattle.bundles.specs.Bundle.{row_text, step_text, rows_text, steps_text};
ghost use Rattle.bundles.specs.private.TextPut.{held_text};

use calls::{Held, Step};
pub use lent_tables::write_tables;
use terms::Row;
use writer::Writer;

/// The names lines of a bundle.
pub const ROW_NAMES: &[u8] = b"kind a b c";

pub const STEP_NAMES: &[u8] = b"rule left right first second";

// How many digits n has.
fn digits(n: u16) -> usize
    ensures { (result ≡ length (decimal n)) × (result ≤ 5) }
{
    match n.checked_ilog10() {
        Some(power) => power as usize + 1,
        None => 1,
    }
}

// How many bytes the line of a term has: each number has one byte behind it.
fn term_length(row: Row) -> usize
    ensures { (result ≡ length (row_text (row_of row))) × (result ≤ 24) }
{
    4 + digits(row.kind) + digits(row.a) + digits(row.b) + digits(row.c)
}

fn step_length(step: Step) -> usize
    ensures { (result ≡ length (step_text (step_of step))) × (result ≤ 30) }
{
    5 + digits(step.rule)
        + digits(step.left)
        + digits(step.right)
        + digits(step.first)
        + digits(step.second)
}

// How many bytes the lines of terms have.
fn terms_length(rows: &[u16]) -> usize
    requires { length rows.now ≤ row_width * max_rows }
    ensures { (result ≡ length (rows_text (table_of rows.now))) × (result ≤ 24 * max_rows) }
{
    let mut size = 0;
    for numbers in terms::whole_rows(rows) {
        size += term_length(Row::from(*numbers));
    }
    size
}

fn steps_length(steps: &[u16]) -> usize
    requires { length steps.now ≤ step_width * max_steps }
    ensures { (result ≡ length (steps_text (steps_of steps.now))) × (result ≤ 30 * max_steps) }
{
    let mut size = 0;
    for numbers in calls::whole_steps(steps) {
        size += step_length(Step::from(*numbers));
    }
    size
}

/// How long the bundle of the rows and steps is. It asks for no more of them than a book may hold, so that the sum has
/// room; no user calls it.
pub fn bundle_length(held: Held) -> usize
    requires { (length held.rows.now ≤ row_width * max_rows) × (length held.steps.now ≤ step_width * max_steps) }
    ensures { result ≡ length (held_text held.entry) }
{
    let names = ROW_NAMES.len() + 1 + (STEP_NAMES.len() + 1);
    names + terms_length(held.rows) + steps_length(held.steps)
}

/// Writes the bundle of the rows and steps from byte 0 on, line by line, and leaves later bytes. It asks for room,
/// which the caller has shown by `bundle_length`; no user calls it.
pub fn write_bundle(out: &mut [u8], held: Held)
    requires { length (held_text held) ≤ length out.old }
    ensures { out.new ≡ held_text held.entry ++ drop (length (held_text held.entry)) out.old }
{
    let mut writer = Writer::at_start(out);
    writer.append_bundle(held);
}
