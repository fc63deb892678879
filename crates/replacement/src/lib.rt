// The answer of the call replace, on lent rows and steps: whether a list of old rows is covered by a list of new ones.
#![tactic(auto)]

ghost use Rattle.std.specs.Prelude.{◌≡◌, length};
ghost use Rattle.terms.specs.represent.RowTypes.{PlaceIs};
ghost use Rattle.calls.specs.represent.Answers.{done_answer_of};
ghost use Rattle.calls.specs.represent.Tables.{book_held};
ghost use Rattle.replacement.specs.Covered.{is_in, is_replaced, step_saying};
ghost use Rattle.replacement.specs.ReplaceCall.{are_bad_lists, first_uncovered, replace_answer};
ghost use Rattle.replacement.specs.private.Places.{IndexIs};

use calls::{Held, Step};
use common::Refusal;

/// The most old rows of a call, and the most new ones.
pub const MAX_LIST: usize = 64;

// Whether the list has the number n. With `contains` itself in `is_replaced` the check doesn't find that one's proof.
fn is_in(list: &[u16], n: u16) -> bool
    ensures { result ≡ is_in list.now n }
{
    list.contains(&n)
}

// Whether step i is held and says that the row `old`, a path, is contained in some row of `new`.
#[tactic(auto, unfolding(crate::specs::Covered::is_replaced, crate::specs::Covered::is_held_step))]
fn is_replaced(held: Held, new: &[u16], old: u16, i: u16) -> bool
    ensures { result ≡ is_replaced (book_held held.entry) new.now old i }
{
    calls::step_numbered(held.steps, i).is_some_and(|step| {
        step.left == old && terms::is_held_path(held.rows, old) && is_in(new, step.right)
    })
}

// Whether a list is too long, or there are not as many steps as old rows.
#[tactic(auto, unfolding(crate::specs::ReplaceCall::are_bad_lists))]
fn are_bad_lists(old: &[u16], new: &[u16], by: &[u16]) -> bool
    ensures { result ≡ are_bad_lists old.now new.now by.now }
{
    MAX_LIST < old.len() || MAX_LIST < new.len() || by.len() != old.len()
}

// The first place, counted from 0, of an old row whose step isn't as it must be.
fn first_uncovered(held: Held, old: &[u16], new: &[u16], by: &[u16]) -> Option<usize>
    requires { length by.now ≡ length old.now }
    ensures { IndexIs result (first_uncovered (book_held held.entry) old.now new.now by.now) }
{
    old.iter()
        .zip(by)
        .position(|(row, step)| !is_replaced(held, new, *row, *step))
}

/// A replace call on lent rows and steps, as `Session::replace` makes it on those that it holds. `by` has the number of
/// a step for each old row.
pub fn replace_on(held: Held, old: &[u16], new: &[u16], by: &[u16]) -> Result<(), Refusal>
    ensures { done_answer_of result ≡ replace_answer (book_held held.entry) old.now new.now by.now }
{
    if are_bad_lists(old, new, by) {
        return Err(Refusal::BadLists);
    }
    match first_uncovered(held, old, new, by) {
        Some(k) => Err(Refusal::NotCovered((k + 1) as u16)),
        None => Ok(()),
    }
}

/// The first step, counted from 1, that says that the row `old`, a path, is contained in the row `new`.
pub fn step_saying(held: Held, old: u16, new: u16) -> Option<usize>
    ensures { PlaceIs result (step_saying (book_held held.entry) old new) }
{
    if !terms::is_held_path(held.rows, old) {
        return None;
    }
    let place = calls::whole_steps(held.steps).iter().position(|&numbers| {
        let step = Step::from(numbers);
        step.left == old && step.right == new
    })?;
    Some(place + 1)
}
