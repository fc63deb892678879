// The reading of a bundle: its lines are the calls, made from a fresh session.
ghost use Rattle.std.specs.Prelude.{◌≡◌, ◌*◌, ◌≤◌, length, OnErr};
ghost use Rattle.calls.specs.Book.{max_steps};
ghost use Rattle.calls.specs.represent.Tables.{step_width};
ghost use Rattle.session.specs.View.{fresh_session};
ghost use Rattle.session.specs.ReadCall.{ReadMet};
ghost use Rattle.session.specs.represent.Results.{read_result};
ghost use Rattle.session.specs.private.Parts.{wrong_form_at, RowsReadMet, StepsReadMet, CallsReadMet};

use crate::session::Session;
use bundles::{ROW_NAMES, STEP_NAMES};
use calls::{Held, LineRefusal, Step};
use common::Refusal;
use terms::{KeptRows, Row};

// Where the term lines of a bundle end: before line `line`, which starts at `at` and is the first step line.
#[derive(Clone, Copy)]
struct RowsEnd {
    line: usize,
    at: usize,
}

fn wrong_form(line: usize) -> LineRefusal
    ensures { result ≡ wrong_form_at line }
{
    LineRefusal {
        refusal: Refusal::WrongForm,
        line,
    }
}

// Makes the term calls of a bundle's lines from line 2 on, which starts at `start`, up to the second names line.
fn read_rows(bytes: &[u8], start: usize, rows: &mut KeptRows) -> Result<RowsEnd, LineRefusal>
    requires { (2 ≤ start) × (start ≤ length bytes.now) × (rows.old.count ≡ 0) }
    ensures { RowsReadMet bytes.now start rows.old.numbers rows.new.numbers rows.new.count result }
{
    let mut line = 2;
    let mut at = start;
    // By place: cut by `split_inclusive` first, the lines of a full bundle, 42,318 bytes, take 34 microseconds longer
    // to read as numbers, 135 for 101, since each byte is looked at twice.
    while at < bytes.len() {
        if lines::is_line(bytes, at, STEP_NAMES) {
            return Ok(RowsEnd {
                line: line + 1,
                at: at + (STEP_NAMES.len() + 1),
            });
        }
        let text = lines::numbers_line(bytes, at).ok_or(wrong_form(line))?;
        let row = Row::from(text.numbers);
        call_answers::term::term_kept(rows, row).map_err(|refusal| LineRefusal { refusal, line })?;
        line += 1;
        at = text.next;
    }
    Err(wrong_form(line))
}

// Makes the step calls of a bundle's lines behind its term lines, whose rows are held. Its loop is another one than
// that of `read_rows`: it ends with the text, and counts what it puts. The length of `steps` is a clause, as that of
// the table of readings: past a call a proof knows an array's length, too, only by what the call promises.
fn read_steps(
    bytes: &[u8],
    first: RowsEnd,
    rows: &KeptRows,
    steps: &mut [u16],
) -> Result<usize, LineRefusal>
    requires { (first.line ≤ first.at) × (first.at ≤ length bytes.now) × (length steps.old ≡ step_width * max_steps) }
    ensures { StepsReadMet bytes.now first.at first.line rows.now.numbers rows.now.count steps.old
        steps.new result }
{
    let mut noted = matching::no_notes();
    let mut m = 0;
    let mut line = first.line;
    let mut at = first.at;
    // By place, as in `read_rows`.
    while at < bytes.len() {
        let text = lines::numbers_line(bytes, at).ok_or(wrong_form(line))?;
        let step = Step::from(text.numbers);
        let held = Held::first(&rows.numbers, rows.count, steps, m);
        call_answers::step::judge_noted(held, step, &mut noted).map_err(|refusal| LineRefusal {
            refusal,
            line,
        })?;
        common::put_record(steps, m, step.into());
        m += 1;
        line += 1;
        at = text.next;
    }
    Ok(m)
}

impl Session {
    // Makes the calls of a bundle's lines, on a fresh session; some of them, where a line is refused.
    fn make_calls(&mut self, bytes: &[u8]) -> Result<(), LineRefusal>
        requires { self.old ≡ fresh_session }
        ensures { CallsReadMet bytes.now self.new result }
    {
        if !lines::is_line(bytes, 0, ROW_NAMES) {
            return Err(wrong_form(1));
        }
        call_answers::term::keep_first(&mut self.rows, 0);
        let ended = read_rows(bytes, ROW_NAMES.len() + 1, &mut self.rows)?;
        let m = read_steps(bytes, ended, &self.rows, &mut self.steps)?;
        self.row_count = self.rows.count;
        self.step_count = m;
        Ok(())
    }

    /// Makes the calls of a bundle's lines, from a fresh session whatever was held. A refused bundle leaves a fresh
    /// one.
    pub fn read(&mut self, bytes: &[u8]) -> Result<u16, LineRefusal>
        ensures met { ReadMet bytes.now (read_result result self.new) }
        ensures refused { OnErr result (self.new ≡ fresh_session) }
    {
        *self = Session::new();
        match self.make_calls(bytes) {
            Ok(()) => Ok(self.step_count as u16),
            Err(refused) => {
                *self = Session::new();
                Err(refused)
            }
        }
    }
}
