// The counts of a session's steps, and its last step.
ghost use Rattle.std.specs.Prelude.{◌≡◌, length};
ghost use Rattle.matching.specs.represent.Sides.{sides_in};
ghost use Rattle.calls.specs.StepCall.{step_numbered};
ghost use Rattle.calls.specs.Uses.{uses_of};
ghost use Rattle.calls.specs.Promises.{sides_of};
ghost use Rattle.session.specs.View.{view};

use crate::session::Session;
use matching::Sides;

impl Session {
    #[tactic(auto, using(crate::proofs::Views::steps_viewed))]
    pub fn steps_held(&self) -> u16
        ensures { result ≡ length (view self.now).steps }
    {
        self.whole_tables();
        self.steps_counted() as u16
    }

    /// How many of the steps are held by the rule.
    #[tactic(auto, unfolding(crate::specs::View::view))]
    pub fn rule_uses(&self, rule: u16) -> usize
        ensures { result ≡ uses_of rule (view self.now).steps }
    {
        let steps = self.held_steps();
        call_answers::step::rule_uses(steps, rule)
    }

    /// The rows of the last step; zeros if there is none.
    #[tactic(auto, using(crate::proofs::Views::steps_viewed), unfolding(crate::specs::View::view))]
    pub fn last_step(&self) -> Sides
        ensures { sides_in result ≡ sides_of (step_numbered (view self.now).steps (length (view self.now).steps)) }
    {
        self.whole_tables();
        let held = self.steps_counted();
        let steps = self.held_steps();
        calls::sides_of(steps, held as u16)
    }
}
