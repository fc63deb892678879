// What a register above the session asks of it: a record judged by the rows and steps held, and whether a return would
// drop one in use.
ghost use Rattle.std.specs.Prelude.{◌≡◌, OnErr};
ghost use Rattle.calls.specs.Calls.{Call};
ghost use Rattle.calls.specs.represent.Answers.{done_answer_of};
ghost use Rattle.records.specs.represent.Held.{records_in};
ghost use Rattle.records.specs.private.Promises.{RecordMade};
ghost use Rattle.records.specs.Register.{drops_in_use};
ghost use Rattle.session.specs.View.{view};
ghost use Rattle.session.specs.Promises.{session_answer};

use crate::session::Session;
use calls::Held;
use common::Refusal;
use records::{Record, Records};

impl Session {
    /// A record call on the caller's records.
    #[tactic(auto, unfolding(crate::specs::View::view))]
    pub fn record(&self, records: &mut Records, given: Record) -> Result<(), Refusal>
        ensures met { RecordMade (view self.now).rows (view self.now).steps records.old given result records.new }
        ensures refused { OnErr result (records.new ≡ records.old) }
    {
        records.record(self.held(), given)
    }

    /// The answer of a return to the point of that name, which is not made.
    pub fn judge_return(&self, name: u16) -> Result<(), Refusal>
        ensures { done_answer_of result ≡ session_answer self.now (Call.return name) }
    {
        call_answers::point::judge_return(self.held_points(), name)?;
        Ok(())
    }

    /// Whether a return to the point of that name would drop a row or step in use by the caller's records.
    pub fn drops_in_use(&self, records: &Records, name: u16) -> bool
        ensures { result ≡ drops_in_use (view self.now) (records_in records.now) (Call.return name) }
    {
        let point = call_answers::point::point_named(self.held_points(), name);
        let (n, m) = (usize::from(point.rows), usize::from(point.steps));
        let kept = Held::first(&self.rows.numbers, n, &self.steps, m);
        !records.all_kept(terms::row_count(kept.rows), calls::step_count(kept.steps))
    }
}
