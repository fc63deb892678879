// The yearly tally: the uses of each rule over bundles, and the total of their steps.
#![tactic(auto)]

ghost use Rattle.std.specs.Prelude.{◌≡◌, map};
ghost use Rattle.calls.specs.represent.Answers.{done_answer_of};
ghost use Rattle.session.specs.View.{view};
ghost use Rattle.tallies.specs.NameList.{is_bad_name, list_answer};
ghost use Rattle.tallies.specs.Count.{entry};
ghost use Rattle.tallies.specs.represent.Tally.{plus_each, column_of, fresh_tally, file_read, with_file};
ghost use Rattle.tallies.specs.represent.Tally.{entries_of, entry_of, LineIs};

use common::Refusal;
use session::Session;
use std::{array, fmt};

/// The most names of a list.
pub const MAX_FILES: usize = 64;

/// The lines of a tally: one for each rule, and one for the total.
pub const LINES: usize = RULES + 1;

const RULES: usize = matching::MAX_RULE as usize;

/// The uses of each rule, from 1 up, and the total of the steps.
#[derive(Clone, Copy)]
pub struct Tally {
    uses: [u64; RULES],
    total: u64,
}

/// A line of a tally.
#[derive(Clone, Copy, Debug, PartialEq, Eq)]
pub enum TallyLine {
    Rule { rule: u16, uses: u64 },
    Total(u64),
}

impl TallyLine {
    /// The two numbers of the line: the rule and its uses, or 0 and the total.
    pub fn numbers(self) -> (u16, u64)
        ensures { entry result.0 result.1 ≡ entry_of self }
    {
        match self {
            TallyLine::Rule { rule, uses } => (rule, uses),
            TallyLine::Total(total) => (0, total),
        }
    }
}

// As it is printed: its two numbers.
impl fmt::Display for TallyLine {
    fn fmt<W: fmt::Write>(&self, f: &mut fmt::Formatter<W>) -> fmt::Result {
        let (rule, count) = self.numbers();
        write!(f, "{rule} {count}")
    }
}

// Whether the line at place k, counted from 0, is refused.
#[tactic(auto, unfolding(crate::specs::NameList::is_bad_name))]
fn is_bad_name(opened: &[bool], k: usize) -> bool
    ensures { result ≡ is_bad_name opened.now k }
{
    MAX_FILES <= k || !opened.get(k).copied().unwrap_or(false)
}

/// Judges a list of names, where `opened` says of each place, counted from 0, whether its file was opened.
pub fn judge_list(list: &[u8], opened: &[bool]) -> Result<(), Refusal>
    ensures { done_answer_of result ≡ list_answer list.now opened.now }
{
    match (0..lines::names::count(list)).find(|&k| is_bad_name(opened, k)) {
        Some(k) => Err(Refusal::BadName(k + 1)),
        None => Ok(()),
    }
}

// The uses, and those among the session's steps.
fn plus_uses(mut uses: [u64; RULES], session: &Session) -> [u64; RULES]
    ensures { result ≡ plus_each uses (column_of (view session.now).steps) }
{
    for (i, count) in uses.iter_mut().enumerate() {
        let more = session.rule_uses(i as u16 + 1);
        *count = count.saturating_add(more as u64);
    }
    uses
}

impl Tally {
    #[tactic(auto, unfolding(crate::specs::represent::Tally::fresh_tally))]
    pub fn new() -> Tally
        ensures { result ≡ fresh_tally }
    {
        Tally {
            uses: [0u64; RULES],
            total: 0,
        }
    }

    /// The tally with one file more: its bytes, or none where its reading failed.
    pub fn add(self, bytes: Option<&[u8]>) -> Tally
        ensures { result ≡ with_file self (file_read bytes.entry) }
    {
        let Some(bytes) = bytes else {
            return self;
        };
        if common::MAX_BYTES < bytes.len() {
            return self;
        }
        let mut session = Session::new();
        let read = session.read(bytes);
        if read.is_err() {
            return self;
        }
        Tally {
            uses: plus_uses(self.uses, &session),
            total: self.total.saturating_add(u64::from(session.steps_held())),
        }
    }

    // Line k, counted from 0: a rule's, and then the total's.
    fn line(self, k: usize) -> TallyLine
        ensures { LineIs (entries_of self) k result }
    {
        match self.uses.get(k) {
            Some(&uses) => TallyLine::Rule {
                rule: k as u16 + 1,
                uses,
            },
            None => TallyLine::Total(self.total),
        }
    }

    /// The lines of the tally, in order.
    pub fn lines(self) -> [TallyLine; LINES]
        ensures { map entry_of result ≡ entries_of self }
    {
        array::from_fn(|k| self.line(k))
    }
}
