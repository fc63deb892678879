// The search for a derivation, and what a session makes of it.
ghost use Rattle.std.specs.Prelude.{IfOk};
ghost use Rattle.derivations.specs.Derived.{IsMade, Derived};

use crate::limits::Limits;
use crate::making::session_of;
use crate::rows::selectors;
use crate::unknown::Unknown;
use search_terms::{Proof, ProofStep, Store, TermId};
use searching::{Goal, Kind, Outcome, Search};
use session::Session;
use std::alloc::{AllocError, Global};

// How often the steps are made shorter.
const ROUNDS: usize = 100;

// What the search may spend on qualifiers, little first: it finds most, and soonest.
const FUELS: [u32; 2] = [1, 3];

/// A session, and the number of its step, counted from 1, that says that the old selector is contained in the new one.
#[derive(Drop)]
pub struct Derivation {
    pub session: Session,
    pub step: usize,
}

// The steps that the proof needs, made shorter as often as that helps.
fn shortest(store: &Store, proof: Proof) -> Result<Vec<ProofStep>, AllocError> {
    let mut steps = store.needed(proof)?;
    for _ in 0..ROUNDS {
        store.forget_steps();
        let Some(again) = shortening::shortened(store, &steps)? else {
            break
        };
        let shorter = store.needed(again)?;
        if shorter.len() >= steps.len() {
            break;
        }
        steps = shorter;
    }
    Ok(steps)
}

// A search for each kind of goal: the selectors as they are, then their normal forms.
fn search(
    store: &Store,
    (left, right): (TermId, TermId),
    fuel: u32,
    limits: Limits,
) -> Result<Outcome, AllocError> {
    let mut outcome = Outcome::NotFound;
    for kind in [Kind::Path, Kind::Contained] {
        let goal = Goal {
            kind,
            left,
            right,
            fuel,
        };
        match Search::new(store, limits.goals).solve(goal, limits.attempts)? {
            Outcome::NotFound => {}
            Outcome::Limited => outcome = Outcome::Limited,
            proved => return Ok(proved),
        }
    }
    Ok(outcome)
}

// The steps of the derivation that is found with so much fuel.
fn steps_found(
    store: &Store,
    ends: (TermId, TermId),
    fuel: u32,
    limits: Limits,
) -> Result<Vec<ProofStep>, Unknown> {
    match search(store, ends, fuel, limits).map_err(|_| Unknown::NoMemory)? {
        _ if store.is_full() => Err(Unknown::Limited),
        Outcome::Proved(proof) => shortest(store, proof).map_err(|_| Unknown::NoMemory),
        Outcome::NotFound => Err(Unknown::NotFound),
        Outcome::Limited => Err(Unknown::Limited),
    }
}

// The session with the rows of both selectors, where a step of it says that the old one is contained in the new one.
#[tactic(auto, using(crate::proofs::Made::derived))]
fn said(mut session: Session, names: &[u8], old: &[u8], new: &[u8]) -> Result<Derivation, Unknown>
    requires { IsMade session }
    ensures { IfOk result (λ d. Derived names.now old.now new.now d.session d.step) }
{
    let left = session.text(names, old)?;
    let right = session.text(names, new)?;
    match session.step_saying(left, right) {
        Some(step) => Ok(Derivation { session, step }),
        None => Err(Unknown::NotFound),
    }
}

// A derivation by a search with so much fuel.
fn derive_with(
    alloc: Global,
    names: &[u8],
    old: &[u8],
    new: &[u8],
    how: (u32, Limits),
) -> Result<Derivation, Unknown>
    ensures { IfOk result (λ d. Derived names.now old.now new.now d.session d.step) }
{
    let (fuel, limits) = how;
    let store = Store::new(alloc);
    let ends = selectors(&store, names, old, new)?;
    let steps = steps_found(&store, ends, fuel, limits)?;
    let session = session_of(&store, &steps)?;
    said(session, names, old, new)
}

/// A derivation that the old selector is contained in the new one, with the numbers that the list gives to names, or
/// why there is none.
pub fn derive(
    alloc: Global,
    names: &[u8],
    old: &[u8],
    new: &[u8],
    limits: Limits,
) -> Result<Derivation, Unknown>
    ensures { IfOk result (λ d. Derived names.now old.now new.now d.session d.step) }
{
    let [little, more] = FUELS;
    match derive_with(alloc, names, old, new, (little, limits)) {
        Err(Unknown::NotFound | Unknown::Limited | Unknown::Refused(_)) => {
            derive_with(alloc, names, old, new, (more, limits))
        }
        answer => answer,
    }
}
