// The calls order and bundle order: two rows of two sessions as terms, and the steps of two sessions.
ghost use Rattle.session.specs.OrderGuarantee.{OrderMet, BundleOrderMet};

use crate::session::Session;
use common::Refusal;
use std::cmp::Ordering;

impl Session {
    /// Row `row` against row `other_row` of the other session.
    #[tactic(auto, unfolding(crate::specs::View::view))]
    pub fn order(&self, row: u16, other: &Session, other_row: u16) -> Result<Ordering, Refusal>
        ensures { OrderMet self.now row other.now other_row result }
    {
        term_order::order_on(self.held_rows(), row, other.held_rows(), other_row)
    }

    pub fn bundle_order(&self, other: &Session) -> Result<Ordering, Refusal>
        ensures { BundleOrderMet self.now other.now result }
    {
        term_order::bundle_order_on(self.held(), other.held())
    }
}
