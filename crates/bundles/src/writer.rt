// A writer that appends lines to a caller's buffer.
ghost use Rattle.std.specs.Prelude.{◌≡◌, cond, [], ◌∷◌, ◌++◌, ◌+◌, ◌≤◌, ◌<◌, ltb, length};
ghost use Rattle.terms.specs.Row.{table_of};
ghost use Rattle.lines.specs.Line.{newline, space};
ghost use Rattle.lines.specs.Written.{decimal, line_text};
ghost use Rattle.calls.specs.represent.Tables.{steps_of};
ghost use Rattle.bundles.specs.Bundle.{rows_text, steps_text};
ghost use Rattle.bundles.specs.private.TextPut.{Put, text_of_line, held_text};

use crate::{ROW_NAMES, STEP_NAMES, digits};
use calls::{Held, STEP_WIDTH, Step};
use terms::{ROW_WIDTH, Row};

/// A line of a bundle: a names line, a term's or a step's.
#[derive(Clone, Copy)]
pub enum Line<'a> {
    Names(&'a [u8]),
    Term(Row),
    Step(Step),
}

/// What lines are appended to: a caller's buffer, and the position of the next line.
pub struct Writer<'a> {
    out: &'a mut [u8],
    at: usize,
}

// Puts a text at `at`. It gives the position after what it puts, and so do the functions below.
fn put_text(out: &mut [u8], at: usize, text: &[u8]) -> usize
    requires { at + length text.now ≤ length out.old }
    ensures { Put out.old at text.now result out.new }
{
    let end = at + text.len();
    out[at..end].copy_from_slice(text);
    end
}

pub(crate) fn put_byte(out: &mut [u8], at: usize, b: u8) -> usize
    requires { at < length out.old }
    ensures { Put out.old at (b ∷ []) result out.new }
{
    out[at] = b;
    at + 1
}

pub(crate) fn put_number(out: &mut [u8], at: usize, n: u16) -> usize
    requires { at + length (decimal n) ≤ length out.old }
    ensures { Put out.old at (decimal n) result out.new }
{
    let end = at + digits(n);
    itoa::write_digits(u64::from(n), out, end);
    end
}

// Puts a names line.
pub(crate) fn put_names(out: &mut [u8], at: usize, names: &[u8]) -> usize
    requires { at + length names.now + 1 ≤ length out.old }
    ensures { Put out.old at (names.now ++ newline ∷ []) result out.new }
{
    let end = put_text(out, at, names);
    put_byte(out, end, lines::NEWLINE)
}

// What stands behind number i of a line of n numbers.
fn byte_behind(i: usize, n: usize) -> u8
    requires { i < n }
    ensures { result ≡ cond (ltb (i + 1) n) space newline }
{
    if i + 1 < n {
        lines::SPACE
    } else {
        lines::NEWLINE
    }
}

// Puts a line of numbers.
fn put_numbers(out: &mut [u8], at: usize, numbers: &[u16]) -> usize
    requires { (0 < length numbers.now) × (at + length (line_text numbers.now) ≤ length out.old) }
    ensures { Put out.old at (line_text numbers.now) result out.new }
{
    let mut end = at;
    for (i, n) in numbers.iter().enumerate() {
        let after = put_number(out, end, *n);
        end = put_byte(out, after, byte_behind(i, numbers.len()));
    }
    end
}

// Puts a line.
fn put_line(out: &mut [u8], at: usize, line: Line) -> usize
    requires { at + length (text_of_line line) ≤ length out.old }
    ensures { Put out.old at (text_of_line line.entry) result out.new }
{
    match line {
        Line::Names(names) => put_names(out, at, names),
        Line::Term(row) => put_numbers(out, at, &<[u16; ROW_WIDTH]>::from(row)),
        Line::Step(step) => put_numbers(out, at, &<[u16; STEP_WIDTH]>::from(step)),
    }
}

// What appends asks for room, which the length of the whole bundle has shown before the first line.
impl<'a> Writer<'a> {
    /// A writer at byte 0 of the buffer.
    pub fn at_start(out: &'a mut [u8]) -> Writer<'a>
        ensures same_buffer { result.out.ghost_name ≡ out.entry.ghost_name }
        ensures start { (result.out.now ≡ out.old) × (result.at ≡ 0) }
    {
        Writer { out, at: 0 }
    }

    /// Appends a line.
    pub fn append(&mut self, line: Line)
        requires { self.old.at + length (text_of_line line) ≤ length self.old.out.now }
        ensures same_buffer { self.new.out.ghost_name ≡ self.old.out.ghost_name }
        ensures put { Put self.old.out.now self.old.at (text_of_line line.entry) self.new.at self.new.out.now }
    {
        let at = self.at;
        self.at = put_line(self.out, at, line);
    }

    /// Appends the lines of terms.
    pub fn append_terms(&mut self, rows: &[u16])
        requires { self.old.at + length (rows_text (table_of rows.now)) ≤ length self.old.out.now }
        ensures same_buffer { self.new.out.ghost_name ≡ self.old.out.ghost_name }
        ensures put { Put self.old.out.now self.old.at (rows_text (table_of rows.now)) self.new.at
            self.new.out.now }
    {
        for numbers in terms::whole_rows(rows) {
            self.append(Line::Term(Row::from(*numbers)));
        }
    }

    /// Appends the lines of steps.
    pub fn append_steps(&mut self, steps: &[u16])
        requires { self.old.at + length (steps_text (steps_of steps.now)) ≤ length self.old.out.now }
        ensures same_buffer { self.new.out.ghost_name ≡ self.old.out.ghost_name }
        ensures put { Put self.old.out.now self.old.at (steps_text (steps_of steps.now)) self.new.at
            self.new.out.now }
    {
        for numbers in calls::whole_steps(steps) {
            self.append(Line::Step(Step::from(*numbers)));
        }
    }

    /// Appends the lines of a bundle.
    pub fn append_bundle(&mut self, held: Held)
        requires { self.old.at + length (held_text held) ≤ length self.old.out.now }
        ensures same_buffer { self.new.out.ghost_name ≡ self.old.out.ghost_name }
        ensures put { Put self.old.out.now self.old.at (held_text held.entry) self.new.at self.new.out.now }
    {
        self.append(Line::Names(ROW_NAMES));
        self.append_terms(held.rows);
        self.append(Line::Names(STEP_NAMES));
        self.append_steps(held.steps);
    }
}

// It writes nothing, so that the caller's buffer keeps what was appended.
impl Drop for Writer<'_> {
    fn drop(self)
        ensures { self.exit.0.now ≡ self.entry.out.now }
    {
        let Self { out, at } = self;
    }
}
