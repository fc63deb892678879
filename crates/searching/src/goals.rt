// What is asked, and why an attempt at it stops.
use search_terms::{Proof, TermId};

/// What a goal says of its two sides.
#[derive(Clone, Copy, PartialEq, Eq, Debug)]
pub enum Kind {
    /// left <= right, for paths of any form.
    Contained,
    /// left <= right, for paths in normal form.
    Path,
    /// left => right.
    Qualifier,
}

/// A goal; `fuel` is how often the search for it may go from paths into qualifiers, and add what it knows.
#[derive(Clone, Copy, Debug)]
pub struct Goal {
    pub kind: Kind,
    pub left: TermId,
    pub right: TermId,
    pub fuel: u32,
}

/// What the search gives: `Limited` where a limit was met, and so nothing was found.
#[derive(Clone, Copy, Debug)]
pub enum Outcome {
    Proved(Proof),
    NotFound,
    Limited,
}

// Why an attempt has no proof.
#[derive(Clone, Copy, Debug)]
pub(crate) enum Stop {
    NotFound,
    // It needs the answer of another goal first; it is then made again.
    Asked(Goal),
}

pub(crate) type Found = Result<Proof, Stop>;

// A proof, or none; another goal still stops the attempt.
pub(crate) fn tried(found: Found) -> Result<Option<Proof>, Stop> {
    match found {
        Ok(p) => Ok(Some(p)),
        Err(Stop::NotFound) => Ok(None),
        Err(stop) => Err(stop),
    }
}

pub(crate) fn wanted<T: Drop>(x: Option<T>) -> Result<T, Stop> {
    x.ok_or(Stop::NotFound)
}

pub(crate) fn less(n: u32) -> u32 {
    n.saturating_sub(1)
}
