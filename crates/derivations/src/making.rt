// The session that the steps found make.
ghost use Rattle.std.specs.Prelude.{IfOk};
ghost use Rattle.derivations.specs.Derived.{IsMade};

use crate::rows::{needed_terms, row_of};
use crate::unknown::Unknown;
use calls::Step;
use common::Refusal;
use search_terms::{ProofStep, Store};
use session::Session;
use terms::Row;

#[tactic(auto, using(crate::proofs::Made::fresh_made))]
fn fresh() -> Session
    ensures { IsMade result }
{
    Session::new()
}

// Holds the row, and gives its number.
fn hold_row(session: &mut Session, row: Row) -> Result<u16, Refusal>
    requires { IsMade session.old }
    ensures { IsMade session.new }
{
    session.term(row)
}

fn hold_step(session: &mut Session, step: Step) -> Result<u16, Refusal>
    requires { IsMade session.old }
    ensures { IsMade session.new }
{
    session.step(step)
}

// The step with the numbers of its rows.
fn numbered(s: ProofStep, numbers: &Vec<u16>) -> Step {
    Step {
        rule: s.rule,
        left: numbers.get(s.left as usize).copied().unwrap_or(0),
        right: numbers.get(s.right as usize).copied().unwrap_or(0),
        first: u16::try_from(s.first).unwrap_or(0),
        second: u16::try_from(s.second).unwrap_or(0),
    }
}

// The session with the rows that the steps need, and the steps.
pub(crate) fn session_of(store: &Store, steps: &Vec<ProofStep>) -> Result<Session, Unknown>
    ensures { IfOk result (λ s. IsMade s) }
{
    let needed = needed_terms(store, steps).map_err(|_| Unknown::NoMemory)?;
    let mut numbers = Vec::new(store.alloc());
    let mut session = fresh();
    let mut id = 0u32;
    for is_needed in &needed {
        let mut number = 0;
        if *is_needed {
            let row = row_of(store.term(id), &numbers);
            number = hold_row(&mut session, row)?;
        }
        numbers.push(number).map_err(|_| Unknown::NoMemory)?;
        id = id.saturating_add(1);
    }
    for s in steps {
        hold_step(&mut session, numbered(*s, &numbers))?;
    }
    Ok(session)
}
