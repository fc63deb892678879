// The text of lent tables, number by number: whatever is lent, an incomplete last row or step too.
ghost use Rattle.std.specs.Prelude.{◌≡◌, ◌+◌, ◌*◌, ◌≤◌, ◌<◌, length};
ghost use Rattle.terms.specs.Row.{max_rows};
ghost use Rattle.calls.specs.Book.{max_steps};
ghost use Rattle.calls.specs.represent.Tables.{row_width, step_width};
ghost use Rattle.bundles.specs.private.TextPut.{Put};
ghost use Rattle.bundles.specs.private.TablesPut.{byte_after, left_next, lines_text, numbers_length};
ghost use Rattle.bundles.specs.private.TablesPut.{tables_text, first_tables_text, TextWritten};

use crate::writer::{put_byte, put_names, put_number};
use crate::{ROW_NAMES, STEP_NAMES, digits};
use calls::{Held, MAX_STEPS};
use terms::MAX_ROWS;

// How many bytes the lines of a table have: each number has one byte behind it.
fn lines_length(numbers: &[u16]) -> usize
    requires { length numbers.now ≤ step_width * max_steps }
    ensures { (result ≡ numbers_length numbers.now) × (result ≤ 6 * (step_width * max_steps)) }
{
    numbers.iter().map(|n| digits(*n) + 1).sum()
}

fn tables_length(held: Held) -> usize
    requires { (length held.rows.now ≤ row_width * max_rows) × (length held.steps.now ≤ step_width * max_steps) }
    ensures { result ≡ length (tables_text held.entry.rows.now held.entry.steps.now) }
{
    let names = ROW_NAMES.len() + 1 + (STEP_NAMES.len() + 1);
    names + lines_length(held.rows) + lines_length(held.steps)
}

// What stands behind a number with `left` more in its line.
fn byte_after(left: usize) -> u8
    ensures { result ≡ byte_after left }
{
    if left == 0 {
        lines::NEWLINE
    } else {
        lines::SPACE
    }
}

// How many are left behind the next number, where a line has `width` numbers.
fn left_next(width: usize, left: usize) -> usize
    requires { 0 < width }
    ensures { result ≡ left_next width left }
{
    if left == 0 { width - 1 } else { left - 1 }
}

// Puts the lines of a table, `width` numbers a line. By a count, and not by `chunks`: behind the last number of an
// incomplete line a space stands, and no newline.
fn put_lines(out: &mut [u8], at: usize, numbers: &[u16], width: usize) -> usize
    requires { (0 < width) × (at + length (lines_text width numbers.now) ≤ length out.old) }
    ensures { Put out.old at (lines_text width numbers.now) result out.new }
{
    let mut end = at;
    let mut left = width - 1;
    for n in numbers {
        let after = put_number(out, end, *n);
        end = put_byte(out, after, byte_after(left));
        left = left_next(width, left);
    }
    end
}

fn put_tables(out: &mut [u8], at: usize, held: Held) -> usize
    requires { at + length (tables_text held.rows.now held.steps.now) ≤ length out.old }
    ensures { Put out.old at (tables_text held.entry.rows.now held.entry.steps.now) result out.new }
{
    let names = put_names(out, at, ROW_NAMES);
    let rows_end = put_lines(out, names, held.rows, terms::ROW_WIDTH);
    let more_names = put_names(out, rows_end, STEP_NAMES);
    put_lines(out, more_names, held.steps, calls::STEP_WIDTH)
}

/// Writes the bundle of the lent rows and steps, as many as a book may hold, at `at`, where there is room for all of
/// it; else the bytes stay. It gives the bundle's length.
pub fn write_tables(out: &mut [u8], at: usize, held: Held) -> usize
    ensures { TextWritten out.old at
        (first_tables_text max_rows held.entry.rows.now max_steps held.entry.steps.now) result out.new }
{
    let few = Held::first(held.rows, MAX_ROWS, held.steps, MAX_STEPS);
    let size = tables_length(few);
    if at <= out.len() && size <= out.len() - at {
        put_tables(out, at, few);
    }
    size
}
