// Named points on lent numbers, three a point: its name, and how many rows and steps were held when it was set; the
// answers of the calls that set one or return to one.
ghost use Rattle.std.specs.Prelude.{◌≡◌, map};
ghost use Rattle.calls.specs.PointCall.{point_answer};
ghost use Rattle.calls.specs.represent.Points.{counts_in, counts_of, counts_names, PointFound, ReturnFound};
ghost use Rattle.calls.specs.represent.Points.{point_named, cleared};
ghost use Rattle.calls.specs.represent.Answers.{done_answer_of};

use calls::{MAX_POINTS, POINT_WIDTH, PointCounts};
use common::Refusal;

// The points, each as its numbers. `as_chunks` is what rows, steps and points share.
fn whole_points(points: &[u16]) -> &[[u16; POINT_WIDTH]]
    ensures { map counts_in result.now ≡ counts_of points.now }
{
    points.as_chunks().0
}

// The first point of that name, with its place, counted from 0.
fn find_point(points: &[u16], name: u16) -> Option<(usize, PointCounts)>
    ensures { PointFound result (counts_of points.now) name }
{
    whole_points(points)
        .iter()
        .map(|&numbers| PointCounts::from(numbers))
        .enumerate()
        .find(|(_, point)| point.name == name)
}

// What the definitions give where no point has the name.
const NO_COUNTS: PointCounts = PointCounts {
    name: 0,
    rows: 0,
    steps: 0,
};

/// The point of that name; zeros where there is none.
pub fn point_named(points: &[u16], name: u16) -> PointCounts
    ensures { result ≡ point_named (counts_of points.now) name }
{
    find_point(points, name).map_or(NO_COUNTS, |(_, point)| point)
}

/// The answer of a call that sets a point of that name after the points.
#[tactic(auto, unfolding(calls::specs::PointCall::point_answer), using(calls::proofs::PointTables::names_count))]
pub fn judge_point(points: &[u16], name: u16) -> Result<(), Refusal>
    ensures { done_answer_of result ≡ point_answer (counts_names (counts_of points.now)) name }
{
    if name == 0 || find_point(points, name).is_some() {
        return Err(Refusal::BadPoint(name));
    }
    if MAX_POINTS <= whole_points(points).len() {
        return Err(Refusal::PointsFull);
    }
    Ok(())
}

/// The point of that name, to which a call returns, with its place, counted from 0; or the call's refusal.
#[tactic(auto, unfolding(calls::specs::PointCall::return_answer), using(calls::proofs::PointTables::names_count))]
pub fn judge_return(points: &[u16], name: u16) -> Result<(usize, PointCounts), Refusal>
    ensures { ReturnFound result (counts_of points.now) name }
{
    find_point(points, name).ok_or(Refusal::BadPoint(name))
}

/// The numbers from place `from` on become 0.
pub fn clear(numbers: &mut [u16], from: usize)
    ensures { numbers.new ≡ cleared from numbers.old }
{
    let from = from.min(numbers.len());
    numbers[from..].fill(0);
}
