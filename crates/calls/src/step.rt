// Steps on lent numbers, five a step.
ghost use Rattle.std.specs.Prelude.{◌≡◌, ◌-◌, map, length};
ghost use Rattle.matching.specs.represent.Sides.{sides_in};
ghost use Rattle.calls.specs.Book.{step_numbers, step_of_numbers};
ghost use Rattle.calls.specs.StepCall.{step_numbered};
ghost use Rattle.calls.specs.represent.Answers.{step_of};
ghost use Rattle.calls.specs.represent.Tables.{steps_of, StepIs};
ghost use Rattle.calls.specs.Promises.{sides_of};

use matching::Sides;

/// A step has five numbers.
pub const STEP_WIDTH: usize = 5;

pub const MAX_STEPS: usize = 2048;

/// A step: a rule, two rows, and two premises by their numbers.
#[derive(Clone, Copy)]
pub struct Step {
    pub rule: u16,
    pub left: u16,
    pub right: u16,
    pub first: u16,
    pub second: u16,
}

impl From<[u16; STEP_WIDTH]> for Step {
    ghost from_gives = { λ numbers step. step_of step ≡ step_of_numbers numbers };

    fn from([rule, left, right, first, second]: [u16; STEP_WIDTH]) -> Step {
        Step {
            rule,
            left,
            right,
            first,
            second,
        }
    }
}

impl From<Step> for [u16; STEP_WIDTH] {
    ghost from_gives = { λ step numbers. numbers ≡ step_numbers (step_of step) };

    fn from(step: Step) -> [u16; STEP_WIDTH] {
        [step.rule, step.left, step.right, step.first, step.second]
    }
}

/// How many steps the numbers are, without an incomplete last one.
pub fn step_count(steps: &[u16]) -> usize
    ensures { result ≡ length (steps_of steps.now) }
{
    whole_steps(steps).len()
}

/// The steps, each as its numbers. `as_chunks` is what rows, steps and points share.
pub fn whole_steps(steps: &[u16]) -> &[[u16; STEP_WIDTH]]
    ensures { map step_of_numbers result.now ≡ steps_of steps.now }
{
    steps.as_chunks().0
}

/// Step i, counted from 1.
pub fn step_numbered(steps: &[u16], i: u16) -> Option<Step>
    ensures { StepIs result (steps_of steps.now) i }
{
    let place = usize::from(i).checked_sub(1)?;
    whole_steps(steps)
        .get(place)
        .map(|&numbers| Step::from(numbers))
}

/// The rows of step i, counted from 1, and of 0 those of step 1; zeros where there is no such step: a rule doesn't look
/// at a premise that it lacks.
#[tactic(auto, unfolding(crate::specs::Promises::sides_of))]
pub fn sides_of(steps: &[u16], i: u16) -> Sides
    ensures { sides_in result ≡ sides_of (step_numbered (steps_of steps.now) i) }
{
    match whole_steps(steps).get(usize::from(i).saturating_sub(1)) {
        Some(&[_, left, right, ..]) => Sides { left, right },
        None => Sides { left: 0, right: 0 },
    }
}
