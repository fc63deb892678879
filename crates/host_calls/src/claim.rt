// Whether an accepted bundle has a step that says that one selector is contained in another.
ghost use Rattle.std.specs.Prelude.{◌≡◌};
ghost use Rattle.calls.specs.Book.{answer};
ghost use Rattle.host_calls.specs.ClaimCall.{claimed, claim_answer};
ghost use Rattle.host_calls.specs.private.ClaimTypes.{part_of, claim_refusal_answer, claimed_of};

use crate::tell::tell;
use calls::Answer;
use common::Refusal;
use session::{LineRefusal, Session};

// A refusal, by what it is about.
#[derive(Clone, Copy, Debug, PartialEq, Eq)]
enum ClaimRefusal {
    Bundle(LineRefusal),
    OldSelector(Refusal),
    NewSelector(Refusal),
    Claim(Refusal),
}

impl ClaimRefusal {
    // What it is about, as a host's number; 0 is the claim.
    fn part(self) -> usize
        ensures { result ≡ part_of self }
    {
        match self {
            ClaimRefusal::Claim(_) => 0,
            ClaimRefusal::Bundle(_) => 1,
            ClaimRefusal::OldSelector(_) => 2,
            ClaimRefusal::NewSelector(_) => 3,
        }
    }
}

// Twice the same match: the trait asks number and value apart.
impl Answer for ClaimRefusal {
    ghost answer = { claim_refusal_answer };

    fn number(self) -> u16 {
        match self {
            ClaimRefusal::Bundle(refused) => refused.number(),
            ClaimRefusal::OldSelector(refusal)
            | ClaimRefusal::NewSelector(refusal)
            | ClaimRefusal::Claim(refusal) => refusal.number(),
        }
    }

    fn value(self) -> usize {
        match self {
            ClaimRefusal::Bundle(refused) => refused.value(),
            ClaimRefusal::OldSelector(refusal)
            | ClaimRefusal::NewSelector(refusal)
            | ClaimRefusal::Claim(refusal) => refusal.value(),
        }
    }
}

// The step of the bundle that says that the old selector is contained in the new one.
fn claim_in(bundle: &[u8], names: &[u8], old: &[u8], new: &[u8]) -> Result<usize, ClaimRefusal>
    ensures { claimed_of result ≡ claim_answer bundle.now names.now old.now new.now }
{
    let mut session = Session::new();
    let read = session.read(bundle);
    read.map_err(ClaimRefusal::Bundle)?;
    let first = session.text(names, old);
    let left = first.map_err(ClaimRefusal::OldSelector)?;
    let second = session.text(names, new);
    let right = second.map_err(ClaimRefusal::NewSelector)?;
    let step = session.step_saying(left, right);
    step.ok_or(ClaimRefusal::Claim(Refusal::NotCovered(1)))
}

/// The number of the answer, its value, and what it is about.
pub fn spinebriar_claim(
    bundle: &[u8],
    names: &[u8],
    old: &[u8],
    new: &[u8],
    value: &mut usize,
    part: &mut usize,
) -> u16
    ensures { claimed part.new (answer result value.new)
        ≡ claim_answer bundle.now names.now old.now new.now }
{
    let answer = claim_in(bundle, names, old, new);
    *part = answer.err().map_or(0, ClaimRefusal::part);
    tell(answer, value)
}
