// A register above a session: records of editions, whose rows and steps no return drops, which of them are released,
// and every call of the session passed on. A crew's calls are `crew_listing` and `crew_current`; all others are the
// office's.
#![tactic(auto)]

ghost use Rattle.std.specs.Prelude.{◌≡◌, OnErr};
ghost use Rattle.terms.specs.represent.RowTypes.{row_of};
ghost use Rattle.calls.specs.Calls.{Call};
ghost use Rattle.calls.specs.Above.{Above};
ghost use Rattle.calls.specs.represent.Answers.{answer_of, done_answer_of, step_of};
ghost use Rattle.records.specs.Records.{current};
ghost use Rattle.records.specs.represent.Held.{records_in};
ghost use Rattle.session.specs.Promises.{SelectMet};
ghost use Rattle.session.specs.ReplaceGuarantee.{ReplaceMet};
ghost use Rattle.session.specs.OrderGuarantee.{OrderMet, BundleOrderMet};
ghost use Rattle.session.specs.WriteCall.{WriteMet};
ghost use Rattle.records.specs.Releases.{crew_listing, crew_current};
ghost use Rattle.records.specs.represent.Listed.{listed};
ghost use Rattle.register.specs.Promises.{fresh_register, released_in, RegisterMet};
ghost use Rattle.register.specs.Promises.{RegisterWayBackMet, RegisterReadMet};
ghost use Rattle.register.specs.represent.Results.{read_result};

use records::Releases;
use session::Session;
use std::cmp::Ordering;

// With what calls take and answer, so that callers name no crate below.
pub use records::{Record, Records};
pub use session::{Answer, LineRefusal, Refusal, Row, Step};

#[derive(Drop)]
pub struct Register {
    session: Session,
    records: Records,
    releases: Releases,
}

impl Register {
    /// The most records, for callers, as a session names its limits.
    pub const RECORDS: usize = records::MAX_RECORDS;

    pub fn new() -> Register
        ensures { result ≡ fresh_register }
    {
        Register {
            session: Session::new(),
            records: Records::new(),
            releases: Releases::new(),
        }
    }

    /// Records an edition of a series: its path row, and the step by which the previous edition's path is contained in
    /// it.
    pub fn record(&mut self, given: Record) -> Result<(), Refusal>
        ensures met { RegisterMet self.old (Above.passed (Above.own given)) (done_answer_of result) self.new }
        ensures refused { OnErr result (self.new ≡ self.old) }
    {
        self.session.record(&mut self.records, given)
    }

    /// The current edition of a series, 0 if it has none; editions count from 1.
    pub fn current(&self, series: u16) -> u16
        ensures { result ≡ current (records_in self.now.records) series }
    {
        self.records.current(series)
    }

    /// Releases the record at a place, counted from 1.
    pub fn release(&mut self, place: u16) -> Result<(), Refusal>
        ensures met { RegisterMet self.old (Above.own place) (done_answer_of result) self.new }
        ensures refused { OnErr result (self.new ≡ self.old) }
    {
        self.releases.release(&self.records, place)
    }

    /// All records, in the order of recording.
    pub fn listing(&self) -> Records
        ensures { result ≡ listed (records_in self.now.records) }
    {
        self.records.listing()
    }

    /// The released records, in that order.
    pub fn crew_listing(&self) -> Records
        ensures { result ≡ listed (crew_listing (released_in self.now)) }
    {
        self.records.released(&self.releases)
    }

    /// The highest released edition of a series; 0 if it has none, as of `current`.
    pub fn crew_current(&self, series: u16) -> u16
        ensures { result ≡ crew_current (released_in self.now) series }
    {
        let shown = self.records.released(&self.releases);
        shown.current(series)
    }

    /// Returns to the point of that name, where that drops no row and no step in use.
    pub fn return_to(&mut self, name: u16) -> Result<(), Refusal>
        ensures met { RegisterMet self.old (Above.passed (Above.passed (Call.return name)))
            (done_answer_of result) self.new }
        ensures refused { OnErr result (self.new ≡ self.old) }
    {
        self.session.judge_return(name)?;
        if self.session.drops_in_use(&self.records, name) {
            return Err(Refusal::FullOrInUse);
        }
        self.session.return_to(name)
    }

    pub fn term(&mut self, row: Row) -> Result<u16, Refusal>
        ensures met { RegisterMet self.old (Above.passed (Above.passed (Call.term (row_of row))))
            (answer_of result) self.new }
        ensures refused { OnErr result (self.new ≡ self.old) }
    {
        self.session.term(row)
    }

    pub fn step(&mut self, step: Step) -> Result<u16, Refusal>
        ensures met { RegisterMet self.old (Above.passed (Above.passed (Call.step (step_of step))))
            (answer_of result) self.new }
        ensures refused { OnErr result (self.new ≡ self.old) }
    {
        self.session.step(step)
    }

    pub fn text(&mut self, names: &[u8], selector: &[u8]) -> Result<u16, Refusal>
        ensures met { RegisterMet self.old (Above.passed (Above.passed (Call.text names.now selector.now)))
            (answer_of result) self.new }
        ensures refused { OnErr result (self.new ≡ self.old) }
    {
        self.session.text(names, selector)
    }

    pub fn point(&mut self, name: u16) -> Result<(), Refusal>
        ensures met { RegisterMet self.old (Above.passed (Above.passed (Call.point name)))
            (done_answer_of result) self.new }
        ensures refused { OnErr result (self.new ≡ self.old) }
    {
        self.session.point(name)
    }

    pub fn way_back(&mut self, row: u16) -> Result<u16, Refusal>
        ensures met { RegisterWayBackMet self.old row (answer_of result) self.new }
        ensures refused { OnErr result (self.new ≡ self.old) }
    {
        self.session.way_back(row)
    }

    /// With the parameters of `Session::select`.
    pub fn select(
        &self,
        row: u16,
        document: &[u16],
        context: u16,
        limit: u32,
        marks: &mut [u8],
    ) -> Result<u32, Refusal>
        ensures { SelectMet self.now.session row document.now context limit
            marks.old result marks.new }
    {
        self.session.select(row, document, context, limit, marks)
    }

    pub fn replace(&self, old: &[u16], new: &[u16], by: &[u16]) -> Result<(), Refusal>
        ensures { ReplaceMet self.now.session old.now new.now by.now result }
    {
        self.session.replace(old, new, by)
    }

    pub fn order(&self, row: u16, other: &Register, other_row: u16) -> Result<Ordering, Refusal>
        ensures { OrderMet self.now.session row other.now.session other_row result }
    {
        self.session.order(row, &other.session, other_row)
    }

    pub fn bundle_order(&self, other: &Register) -> Result<Ordering, Refusal>
        ensures { BundleOrderMet self.now.session other.now.session result }
    {
        self.session.bundle_order(&other.session)
    }

    pub fn write(&self, out: &mut [u8]) -> Result<usize, Refusal>
        ensures { WriteMet self.now.session out.old result out.new }
    {
        self.session.write(out)
    }

    /// Makes the calls of a bundle's lines, from a fresh register whatever was held. A refused bundle leaves a fresh
    /// one.
    pub fn read(&mut self, bytes: &[u8]) -> Result<u16, LineRefusal>
        ensures met { RegisterReadMet bytes.now (read_result result self.new) }
        ensures refused { OnErr result (self.new ≡ fresh_register) }
    {
        self.records = Records::new();
        self.releases = Releases::new();
        self.session.read(bytes)
    }
}
