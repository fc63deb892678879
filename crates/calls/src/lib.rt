// What the calls on lent rows, steps and points have in common: their answers, steps and points, and the first rows,
// steps and points of a table. Each call is judged in a crate of its own.
// Rows, steps and points are lent as numbers, and not as slices of structs: of any numbers, as C lends them, a call
// answers, and an incomplete last row or step is none.
#![tactic(auto)]

mod answer;
pub mod answer_line;
mod held;
mod points;
mod step;

ghost use Rattle.std.specs.Prelude.{◌≡◌, take};
ghost use Rattle.calls.specs.represent.Points.{first_point_numbers};
ghost use Rattle.calls.specs.represent.Tables.{first_row_numbers, first_step_numbers};

pub use answer::{Answer, LineRefusal, Value};
pub use held::Held;
pub use points::{MAX_POINTS, POINT_WIDTH, PointCounts};
pub use step::{MAX_STEPS, STEP_WIDTH, Step, sides_of, step_count, step_numbered, whole_steps};

/// The first numbers, as many as `count` says, or all.
pub fn front(numbers: &[u16], count: usize) -> &[u16]
    ensures { result.now ≡ take count numbers.now }
{
    numbers.get(..count).unwrap_or(numbers)
}

/// The numbers of the first n rows.
pub fn first_rows(rows: &[u16], n: usize) -> &[u16]
    ensures { result.now ≡ first_row_numbers n rows.now }
{
    front(rows, terms::ROW_WIDTH * n.min(terms::MAX_ROWS))
}

/// The numbers of the first m steps.
pub fn first_steps(steps: &[u16], m: usize) -> &[u16]
    ensures { result.now ≡ first_step_numbers m steps.now }
{
    front(steps, STEP_WIDTH * m.min(MAX_STEPS))
}

/// The numbers of the first k points.
pub fn first_points(points: &[u16], k: usize) -> &[u16]
    ensures { result.now ≡ first_point_numbers k points.now }
{
    front(points, POINT_WIDTH * k.min(MAX_POINTS))
}
