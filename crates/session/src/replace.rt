// The call replace: whether a list of old rows is covered by a list of new ones.
ghost use Rattle.terms.specs.represent.RowTypes.{PlaceIs};
ghost use Rattle.replacement.specs.Covered.{step_saying};
ghost use Rattle.session.specs.View.{view};
ghost use Rattle.session.specs.ReplaceGuarantee.{ReplaceMet};

use crate::session::Session;
use common::Refusal;

impl Session {
    /// `by` has the number of a step for each old row.
    pub fn replace(&self, old: &[u16], new: &[u16], by: &[u16]) -> Result<(), Refusal>
        ensures { ReplaceMet self.now old.now new.now by.now result }
    {
        replacement::replace_on(self.held(), old, new, by)
    }

    /// The first step, counted from 1 and so at most `Session::STEPS`, that says that row `old`, a path, is contained
    /// in row `new`.
    pub fn step_saying(&self, old: u16, new: u16) -> Option<usize>
        ensures { PlaceIs result (step_saying (view self.now) old new) }
    {
        replacement::step_saying(self.held(), old, new)
    }
}
