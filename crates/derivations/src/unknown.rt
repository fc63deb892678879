// Why no derivation is answered.
ghost use Rattle.std.specs.Prelude.{◌≡◌};
ghost use Rattle.derivations.specs.declared.unknown.Unknown.TheVariants as UNKNOWN;

use common::Refusal;
use std::error::Error;
use std::fmt;

/// Why there is no derivation in an answer. None of these says that there is none: the search doesn't try everything.
#[derive(Clone, Copy, Debug, PartialEq, Eq)]
pub enum Unknown {
    /// The old selector is refused as a text.
    Old(Refusal),
    /// The new selector is.
    New(Refusal),
    /// The search has ended, and found none.
    NotFound,
    /// The search met its limit of goals, attempts, terms or steps.
    Limited,
    /// The derivation found, after all shortening, has no place in a session: what it answers its call.
    Refused(Refusal),
    /// There was no memory.
    NoMemory,
}

// Of a session's call that makes the answer.
impl From<Refusal> for Unknown {
    ghost from_gives = { λ refusal unknown. unknown ≡ UNKNOWN.Refused refusal };

    fn from(refusal: Refusal) -> Unknown {
        Unknown::Refused(refusal)
    }
}

impl fmt::Display for Unknown {
    fn fmt<W: fmt::Write>(&self, f: &mut fmt::Formatter<W>) -> fmt::Result {
        match self {
            Unknown::Old(refusal) => write!(f, "OLD is refused: {refusal}"),
            Unknown::New(refusal) => write!(f, "NEW is refused: {refusal}"),
            Unknown::NotFound => f.write_str("no derivation was found"),
            Unknown::Limited => f.write_str("the search met its limit"),
            Unknown::Refused(refusal) => write!(
                f,
                "a session has no place for the derivation: {refusal}"
            ),
            Unknown::NoMemory => f.write_str("there was no memory"),
        }
    }
}

impl Error for Unknown {}
