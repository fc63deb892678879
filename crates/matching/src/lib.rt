// The step checker: whether a rule yields a step from its premises, judged on the rows' numbers.
#![tactic(auto)]

mod matcher;
mod order;
mod pattern;
mod tables;
mod way_back;

ghost use Rattle.std.specs.Prelude.{◌≡◌, List, map, take};
ghost use Rattle.terms.specs.Row.{Row, table_of};
ghost use Rattle.rules.specs.Yields.{premise_count};
ghost use Rattle.matching.specs.private.RowWayBack.{Noted};
ghost use Rattle.matching.specs.private.RowYields.{row_yields};
ghost use Rattle.matching.specs.represent.Sides.{sides_in};

pub use matcher::Sides;
use matcher::forms_of;
pub use order::{axis_below, test_below};
use terms::MAX_ROWS;
use way_back::is_with_back;
pub use way_back::{WAY_BACK_RULE, opposite_axis};

/// The last rule.
pub const MAX_RULE: u16 = WAY_BACK_RULE;

/// Notes of rows' ways back, before any is found.
pub fn no_notes() -> [Option<u16>; MAX_ROWS]
    ensures { (rs : List Row) → Noted rs result }
{
    [None; MAX_ROWS]
}

/// How many premises a rule has; 0 where there is no such rule, as the definition has it.
#[tactic(auto, unfolding(rules::specs::Yields::premise_count, rules::specs::Yields::first_count))]
pub fn premise_count(rule: u16) -> usize
    ensures { result ≡ premise_count rule }
{
    forms_of(rule).first().map_or(0, |form| form.premises.len())
}

/// Whether the rule, by the rule table or by the way back, yields the step from premises with the rows given. The rows
/// of a premise that the rule doesn't have don't matter. What is found of ways back is noted. That the notes are true
/// of the rows is asked: a test of them would find each way back anew.
pub fn yields(
    rows: &[u16],
    rule: u16,
    step: Sides,
    premises: [Sides; 2],
    noted: &mut [Option<u16>],
) -> bool
    requires { Noted (table_of rows.now) noted.old }
    ensures { (result ≡ row_yields (table_of rows.now) rule (sides_in step)
        (take (premise_count rule) (map sides_in premises)))
        × Noted (table_of rows.now) noted.new }
{
    if rule == WAY_BACK_RULE {
        return is_with_back(rows, step, noted);
    }
    forms_of(rule)
        .iter()
        .any(|form| form.yields(rows, step, premises))
}
