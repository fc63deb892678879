// The rows and steps that calls are made on.
ghost use Rattle.std.specs.Prelude.{◌≡◌};
ghost use Rattle.calls.specs.represent.Tables.{first_row_numbers, first_step_numbers};

use crate::{first_rows, first_steps};

/// Rows and steps, lent as numbers.
#[derive(Clone, Copy)]
pub struct Held<'a> {
    pub rows: &'a [u16],
    pub steps: &'a [u16],
}

impl<'a> Held<'a> {
    /// The first n rows of a table and the first m steps of another.
    pub fn first(rows: &'a [u16], n: usize, steps: &'a [u16], m: usize) -> Held<'a>
        ensures { (result.rows.now ≡ first_row_numbers n rows.now)
            × (result.steps.now ≡ first_step_numbers m steps.now) }
    {
        Held {
            rows: first_rows(rows, n),
            steps: first_steps(steps, m),
        }
    }
}
