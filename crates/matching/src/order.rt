// The order of the axes and the order of the tests.
ghost use Rattle.std.specs.Prelude.{◌≡◌, true};
ghost use Rattle.rules.specs.Order.{axis_pairs, is_pair, axis_below, test_below};
ghost use Rattle.matching.specs.private.MatchTypes.{same_pairs};

use crate::tables::AXIS_PAIRS;
use common::node_test::NodeTest;

/// Whether (a, b) is one of the pairs.
pub fn is_pair(pairs: &[(u16, u16)], a: u16, b: u16) -> bool
    ensures { result ≡ is_pair pairs.now a b }
{
    pairs.contains(&(a, b))
}

// The constant table, with one test over all of it, which the check computes: each of its pairs is one of the axis
// order, and each of the axis order one of its pairs.
fn axis_pairs() -> &'static [(u16, u16)]
    ensures { same_pairs result.now axis_pairs ≡ true }
{
    &AXIS_PAIRS
}

/// Whether axis a is below axis b, which the test of the table tells of each pair that is sought.
pub fn axis_below(a: u16, b: u16) -> bool
    ensures { result ≡ axis_below a b }
{
    is_pair(axis_pairs(), a, b)
}

/// Whether test t with name c is below test u with name e.
#[tactic(auto, unfolding(rules::specs::Order::test_below))]
pub fn test_below(t: u16, c: u16, u: u16, e: u16) -> bool
    ensures { result ≡ test_below t c u e }
{
    match (NodeTest::try_from(t), NodeTest::try_from(u)) {
        (_, Ok(NodeTest::Node)) => true,
        (Ok(NodeTest::Name), Ok(NodeTest::Star)) => true,
        (Ok(NodeTest::Target), Ok(NodeTest::Instruction)) => true,
        _ => t == u && c == e,
    }
}
