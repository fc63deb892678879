// Step calls on lent rows and steps: their answers, and how many steps are held by a rule.
ghost use Rattle.std.specs.Prelude.{◌≡◌};
ghost use Rattle.common.specs.represent.Refusal.{RefusedAt};
ghost use Rattle.common.specs.declared.refusal.Refusal.TheVariants.{BadSide, BadPremise};
ghost use Rattle.terms.specs.Row.{row_at, table_of};
ghost use Rattle.terms.specs.Fields.{is_path};
ghost use Rattle.matching.specs.private.RowWayBack.{Noted};
ghost use Rattle.calls.specs.StepCall.{same_sort, bad_side_of, premise_ok, bad_premise_of};
ghost use Rattle.calls.specs.Uses.{uses_of};
ghost use Rattle.calls.specs.represent.Tables.{steps_of, book_held};
ghost use Rattle.calls.specs.represent.Answers.{answer_of, step_of};
ghost use Rattle.calls.specs.Promises.{row_yielded, row_step_answer};

use calls::{Held, MAX_STEPS, Step, sides_of, step_count, whole_steps};
use common::Refusal;
use matching::Sides;

/// How many of the steps are held by the rule.
pub fn rule_uses(steps: &[u16], rule: u16) -> usize
    ensures { result ≡ uses_of rule (steps_of steps.now) }
{
    whole_steps(steps)
        .iter()
        .filter(|&&numbers| Step::from(numbers).rule == rule)
        .count()
}

fn is_path(rows: &[u16], i: usize) -> bool
    ensures { result ≡ is_path (row_at (table_of rows.now) i) }
{
    terms::row_at(rows, i).is_path()
}

// Whether rows i and j are both paths, or neither is.
#[tactic(auto, unfolding(calls::specs::StepCall::same_sort))]
fn same_sort(rows: &[u16], i: usize, j: usize) -> bool
    ensures { result ≡ same_sort (table_of rows.now) i j }
{
    is_path(rows, i) == is_path(rows, j)
}

// Refusal 5, with its place.
#[tactic(auto, unfolding(calls::specs::StepCall::bad_side_of))]
fn check_sides(rows: &[u16], step: Step) -> Result<(), Refusal>
    ensures { RefusedAt BadSide (bad_side_of (table_of rows.now) (step_of step)) result }
{
    let n = terms::row_count(rows);
    let left = usize::from(step.left);
    let right = usize::from(step.right);
    if n <= left {
        Err(Refusal::BadSide(1))
    } else if n <= right || !same_sort(rows, left, right) {
        Err(Refusal::BadSide(2))
    } else {
        Ok(())
    }
}

// Whether premise i is as it must be, where `held` steps are.
#[tactic(auto, unfolding(calls::specs::StepCall::premise_ok))]
fn premise_ok(needed: bool, held: usize, i: u16) -> bool
    ensures { result ≡ premise_ok needed held i }
{
    if needed {
        1 <= i && usize::from(i) <= held
    } else {
        i == 0
    }
}

// Refusal 6, with its place, where `held` steps are.
#[tactic(auto, unfolding(calls::specs::StepCall::bad_premise_of))]
fn check_premises(held: usize, step: Step) -> Result<(), Refusal>
    ensures { RefusedAt BadPremise (bad_premise_of held (step_of step)) result }
{
    let count = matching::premise_count(step.rule);
    if !premise_ok(1 <= count, held, step.first) {
        Err(Refusal::BadPremise(1))
    } else if !premise_ok(2 <= count, held, step.second) {
        Err(Refusal::BadPremise(2))
    } else {
        Ok(())
    }
}

// Whether the rule yields the step, judged by row numbers.
fn is_yielded(held: Held, step: Step, noted: &mut [Option<u16>]) -> bool
    requires { Noted (table_of held.rows.now) noted.old }
    ensures { (result ≡ row_yielded (book_held held.entry) (step_of step))
        × Noted (table_of held.entry.rows.now) noted.new }
{
    let sides = Sides {
        left: step.left,
        right: step.right,
    };
    let premises = [step.first, step.second].map(|i| sides_of(held.steps, i));
    matching::yields(held.rows, step.rule, sides, premises, noted)
}

/// The answer of a step call on the rows and steps held: the first refusal that applies, or the new step's number. The
/// notes of what is known of rows' ways back are lent; that they are true is asked, as by `matching::yields`.
#[tactic(auto, unfolding(calls::specs::Promises::row_step_answer, calls::specs::StepCall::step_answer_by))]
pub fn judge_noted(held: Held, step: Step, noted: &mut [Option<u16>]) -> Result<u16, Refusal>
    requires { Noted (table_of held.rows.now) noted.old }
    ensures { (answer_of result ≡ row_step_answer (book_held held.entry) (step_of step))
        × Noted (table_of held.entry.rows.now) noted.new }
{
    if step.rule == 0 || matching::MAX_RULE < step.rule {
        return Err(Refusal::NoRule);
    }
    check_sides(held.rows, step)?;
    let count = step_count(held.steps);
    check_premises(count, step)?;
    if !is_yielded(held, step, noted) {
        return Err(Refusal::NotYielded);
    }
    if MAX_STEPS <= count {
        return Err(Refusal::StepsFull);
    }
    Ok((count + 1) as u16)
}

/// The same of one step by itself. Only the way back takes notes: for another rule none are cleared.
pub fn judge_step(held: Held, step: Step) -> Result<u16, Refusal>
    ensures { answer_of result ≡ row_step_answer (book_held held.entry) (step_of step) }
{
    if step.rule == matching::WAY_BACK_RULE {
        let mut noted = matching::no_notes();
        return judge_noted(held, step, &mut noted);
    }
    judge_noted(held, step, &mut [])
}
