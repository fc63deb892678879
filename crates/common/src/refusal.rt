// The refusals, each with what its value is.
ghost use Rattle.std.specs.Prelude.{◌≡◌};
ghost use Rattle.common.specs.represent.Refusal.{refusal_number, refusal_value};

use std::error::Error;
use std::fmt;

#[derive(Clone, Copy, Debug, PartialEq, Eq)]
pub enum Refusal {
    BadKind,
    BadField(u16),
    TooDeep,
    NoRule,
    BadSide(u16),
    BadPremise(u16),
    NotYielded,
    BadDocument(u16),
    BadArgument(u16),
    WrongForm,
    TermsFull,
    AlreadyHeld(u16),
    StepsFull,
    ShortMarks,
    LimitPassed,
    ShortBuffer(usize),
    BadName(usize),
    OutsideGrammar(usize),
    UnlistedName(usize),
    BadPoint(u16),
    PointsFull,
    NotNext(u32),
    BadRecord(u16),
    FullOrInUse,
    BadLists,
    NotCovered(u16),
    NoRecord(u16),
}

impl Refusal {
    pub fn number(self) -> u16
        ensures { result ≡ refusal_number self }
    {
        match self {
            Refusal::BadKind => 1,
            Refusal::BadField(_) => 2,
            Refusal::TooDeep => 3,
            Refusal::NoRule => 4,
            Refusal::BadSide(_) => 5,
            Refusal::BadPremise(_) => 6,
            Refusal::NotYielded => 7,
            Refusal::BadDocument(_) => 8,
            Refusal::BadArgument(_) => 9,
            Refusal::WrongForm => 10,
            Refusal::TermsFull => 11,
            Refusal::AlreadyHeld(_) => 12,
            Refusal::StepsFull => 13,
            Refusal::ShortMarks => 14,
            Refusal::LimitPassed => 15,
            Refusal::ShortBuffer(_) => 16,
            Refusal::BadName(_) => 17,
            Refusal::OutsideGrammar(_) => 18,
            Refusal::UnlistedName(_) => 19,
            Refusal::BadPoint(_) => 20,
            Refusal::PointsFull => 21,
            Refusal::NotNext(_) => 22,
            Refusal::BadRecord(_) => 23,
            Refusal::FullOrInUse => 24,
            Refusal::BadLists => 25,
            Refusal::NotCovered(_) => 26,
            Refusal::NoRecord(_) => 27,
        }
    }

    pub fn value(self) -> usize
        ensures { result ≡ refusal_value self }
    {
        match self {
            Refusal::BadField(n)
            | Refusal::BadSide(n)
            | Refusal::BadPremise(n)
            | Refusal::BadDocument(n)
            | Refusal::BadArgument(n)
            | Refusal::AlreadyHeld(n)
            | Refusal::BadPoint(n)
            | Refusal::BadRecord(n)
            | Refusal::NotCovered(n)
            | Refusal::NoRecord(n) => usize::from(n),
            Refusal::NotNext(n) => n as usize,
            Refusal::ShortBuffer(n)
            | Refusal::BadName(n)
            | Refusal::OutsideGrammar(n)
            | Refusal::UnlistedName(n) => n,
            Refusal::BadKind
            | Refusal::TooDeep
            | Refusal::NoRule
            | Refusal::NotYielded
            | Refusal::WrongForm
            | Refusal::TermsFull
            | Refusal::StepsFull
            | Refusal::ShortMarks
            | Refusal::LimitPassed
            | Refusal::PointsFull
            | Refusal::FullOrInUse
            | Refusal::BadLists => 0,
        }
    }
}

impl fmt::Display for Refusal {
    fn fmt<W: fmt::Write>(&self, f: &mut fmt::Formatter<W>) -> fmt::Result {
        f.write_str(match self {
            Refusal::BadKind => "the kind of the row is above 11",
            Refusal::BadField(_) => "a bad operand, axis, test, name or unused field",
            Refusal::TooDeep => "the term is nested deeper than 32",
            Refusal::NoRule => "there is no rule of this number",
            Refusal::BadSide(_) =>
                "the left or the right row is not held, or the two are of different sorts",
            Refusal::BadPremise(_) => "a premise is not a held step, or the rule takes none there",
            Refusal::NotYielded => "the rule does not yield the step",
            Refusal::BadDocument(_) => "the document is empty, too long or has a bad row",
            Refusal::BadArgument(_) =>
                "the context node is outside the document, or the row is not a held path",
            Refusal::WrongForm => "a line of the wrong form",
            Refusal::TermsFull => "the new rows do not fit in a session's 1,024",
            Refusal::AlreadyHeld(_) => "the row is held already",
            Refusal::StepsFull => "the session holds 2,048 steps already",
            Refusal::ShortMarks => "the marks are shorter than the document",
            Refusal::LimitPassed => "more visits are needed than the limit",
            Refusal::ShortBuffer(_) => "the buffer is shorter than the bundle",
            Refusal::BadName(_) => "a 65th name, or a file that can't be opened",
            Refusal::OutsideGrammar(_) => "the text is outside the grammar of selectors",
            Refusal::UnlistedName(_) => "a name of the text is not in the list",
            Refusal::BadPoint(_) =>
                "no point has the name, or a point to be set has the name 0 or one in use",
            Refusal::PointsFull => "the session holds eight points already",
            Refusal::NotNext(_) => "the edition is not the next one of its series",
            Refusal::BadRecord(_) => "the row or the step of the record is not as it must be",
            Refusal::FullOrInUse =>
                "the register is full, or the return would drop a row or step in use",
            Refusal::BadLists => "more than 64 old or new rows, or not as many steps as old rows",
            Refusal::NotCovered(_) => "no step says that the old one is contained in a new one",
            Refusal::NoRecord(_) => "the register has no record at the place",
        })
    }
}

impl Error for Refusal {}
