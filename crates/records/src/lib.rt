// The records of the register, editions of series, and which of them are released; the answers of the calls record,
// current and release, and listings.
#![tactic(auto)]

ghost use Rattle.std.specs.Prelude.{◌≡◌, ◌<◌, leb, length, OnErr};
ghost use Rattle.terms.specs.Row.{table_of};
ghost use Rattle.calls.specs.represent.Answers.{done_answer_of};
ghost use Rattle.calls.specs.represent.Tables.{steps_of};
ghost use Rattle.records.specs.Records.{current, row_of, is_fit_step, record_answer, all_kept};
ghost use Rattle.records.specs.Records.{max_records};
ghost use Rattle.records.specs.represent.Held.{size_of, records_in, no_records, with_record};
ghost use Rattle.records.specs.Releases.{released};
ghost use Rattle.records.specs.represent.Listed.{no_releases, listed};
ghost use Rattle.records.specs.private.Promises.{RecordMade, all_releases, ReleaseMade};

use calls::Held;
use common::Refusal;

pub const MAX_RECORDS: usize = 256;

/// A record: a series, an edition from 1, a path row and a step.
#[derive(Clone, Copy, PartialEq, Eq, Debug)]
pub struct Record {
    pub series: u16,
    pub edition: u16,
    pub row: u16,
    pub step: u16,
}

/// Records, of which the first ones are held, as many as the count says. Fixed memory without a heap: no call can fail
/// for want of it.
#[derive(Clone, Copy)]
pub struct Records {
    held: [Record; MAX_RECORDS],
    count: usize,
}

/// Which records are released: 1 at the place of each that is.
#[derive(Clone, Copy)]
pub struct Releases {
    flags: [u8; MAX_RECORDS],
}

// What stands past the records held, as in the definition; editions count from 1.
const NO_RECORD: Record = Record {
    series: 0,
    edition: 0,
    row: 0,
    step: 0,
};

// Whether a step is as it must be for an edition with that row, where the previous edition has the row `previous`.
#[tactic(auto, unfolding(crate::specs::Records::is_fit_step))]
fn is_fit_step(steps: &[u16], previous: u16, given: Record) -> bool
    ensures { result ≡ is_fit_step (steps_of steps.now) previous given }
{
    if given.edition == 1 {
        return given.step == 0;
    }
    calls::step_numbered(steps, given.step).is_some_and(|step| step.left == previous
        && step.right == given.row)
}

impl Records {
    #[tactic(auto, unfolding(crate::specs::represent::Held::no_records))]
    pub fn new() -> Records
        ensures { result ≡ no_records }
    {
        Records {
            held: [NO_RECORD; MAX_RECORDS],
            count: 0,
        }
    }

    /// How many records are held: a count above the limit is read as the limit.
    pub fn size(&self) -> usize
        ensures { result ≡ size_of self.now }
    {
        self.count.min(MAX_RECORDS)
    }

    /// The records held.
    pub fn list(&self) -> &[Record]
        ensures { result.now ≡ records_in self.now }
    {
        &self.held[..self.size()]
    }

    fn is_full(&self) -> bool
        ensures { result ≡ leb max_records (length (records_in self.now)) }
    {
        MAX_RECORDS <= self.size()
    }

    /// The highest edition of a series, 0 if it has none: editions count from 1, and the next one is due.
    pub fn current(&self, series: u16) -> u16
        ensures { result ≡ current (records_in self.now) series }
    {
        self.list()
            .iter()
            .filter(|r| r.series == series)
            .map(|r| r.edition)
            .max()
            .unwrap_or(0)
    }

    // The row of an edition of a series; 0 where it is not held, as the definition has it: the edition due is 1 then,
    // of which no row before it is looked at.
    fn row_of(&self, series: u16, edition: u16) -> u16
        ensures { result ≡ row_of (records_in self.now) series edition }
    {
        self.list()
            .iter()
            .find(|r| r.series == series && r.edition == edition)
            .map_or(0, |r| r.row)
    }

    /// Whether every row and every step in use is among the first ones, as many as given. Of counts, not of `Held`: no
    /// row or step is looked at.
    pub fn all_kept(&self, rows: usize, steps: usize) -> bool
        ensures { result ≡ all_kept rows steps (records_in self.now) }
    {
        self.list().iter().all(|r| usize::from(r.row) < rows && usize::from(r.step) <= steps)
    }

    // The answer of a record call on lent rows and steps: the first refusal that applies, or acceptance.
    fn judge(&self, held: Held, given: Record) -> Result<(), Refusal>
        ensures { done_answer_of result
            ≡ record_answer (table_of held.entry.rows.now) (steps_of held.entry.steps.now) (records_in self.now) given }
    {
        let highest = self.current(given.series);
        let due = u32::from(highest) + 1;
        if u32::from(given.edition) != due {
            return Err(Refusal::NotNext(due));
        }
        if !terms::is_held_path(held.rows, given.row) {
            return Err(Refusal::BadRecord(1));
        }
        let previous = self.row_of(given.series, highest);
        if !is_fit_step(held.steps, previous, given) {
            return Err(Refusal::BadRecord(2));
        }
        if self.is_full() {
            return Err(Refusal::FullOrInUse);
        }
        Ok(())
    }

    // Also the record, after those held.
    fn put(&mut self, given: Record)
        requires { size_of self.old < max_records }
        ensures { self.new ≡ with_record self.old given }
    {
        let n = self.size();
        self.held[n] = given;
        self.count = n + 1;
    }

    /// A record call on lent rows and steps: the answer, and the record after those held where it is accepted.
    pub fn record(&mut self, held: Held, given: Record) -> Result<(), Refusal>
        ensures met { RecordMade (table_of held.entry.rows.now) (steps_of held.entry.steps.now) self.old given result
            self.new }
        ensures refused { OnErr result (self.new ≡ self.old) }
    {
        self.judge(held, given)?;
        self.put(given);
        Ok(())
    }
}

impl Records {
    /// A listing of the released records, in their order.
    pub fn released(&self, releases: &Releases) -> Records
        ensures { result ≡ listed (released (records_in self.now) releases.now.flags) }
    {
        let mut shown = Records::new();
        for (record, flag) in self.list().iter().zip(&releases.flags) {
            if *flag == 1 {
                shown.put(*record);
            }
        }
        shown
    }

    /// A listing of all records.
    pub fn listing(&self) -> Records
        ensures { result ≡ listed (records_in self.now) }
    {
        self.released(&Releases::all())
    }
}

impl Releases {
    #[tactic(auto, unfolding(crate::specs::represent::Listed::no_releases))]
    pub fn new() -> Releases
        ensures { result ≡ no_releases }
    {
        Releases {
            flags: [0u8; MAX_RECORDS],
        }
    }

    // Two functions, as their definitions: with the flag a parameter a caller could give any number.
    #[tactic(auto, unfolding(crate::specs::private::Promises::all_releases))]
    fn all() -> Releases
        ensures { result ≡ all_releases }
    {
        Releases {
            flags: [1u8; MAX_RECORDS],
        }
    }

    /// A release of the record at a place, counted from 1: the answer, and the releases left.
    pub fn release(&mut self, records: &Records, place: u16) -> Result<(), Refusal>
        ensures met { ReleaseMade (records_in records.now) self.old place result self.new }
        ensures refused { OnErr result (self.new ≡ self.old) }
    {
        let n = records.size();
        let p = usize::from(place);
        if p == 0 || n < p {
            return Err(Refusal::NoRecord(place));
        }
        self.flags[p - 1] = 1;
        Ok(())
    }
}
