// Steps from a set of nodes, and back from one.
ghost use Rattle.std.specs.Prelude.{◌≡◌, ◌<◌, ◌&&◌, ◌||◌, false, true, not, eqb, length, get_or, set, replicate, IfOk};
ghost use Rattle.common.specs.Bounded.{any_below};
ghost use Rattle.common.specs.represent.Numbers.{axis_number};
ghost use Rattle.xpath.specs.Axis.{on_axis};
ghost use Rattle.xpath.specs.Term.{AxisStep, Root};
ghost use Rattle.xpath.specs.Meaning.{selects};
ghost use Rattle.set_selection.specs.Sets.{Image, Pointwise, marked};
ghost use Rattle.set_selection.specs.Walks.{is_under, is_over, is_below, is_above};
ghost use Rattle.set_selection.specs.Walks.{is_after, is_before, is_later, is_earlier};
ghost use Rattle.set_selection.specs.Evaluations.{doc};
ghost use Rattle.xpath.specs.private.Tests.{fits};

use crate::columns::Columns;
use crate::{filters, walks};
use common::axis::Axis;
use common::node_kind::NodeKind;
use std::alloc::{AllocError, Global};
use xpath::StepTest;

/// No marks.
pub fn no_marks(alloc: Global, n: usize) -> Result<Vec<bool>, AllocError>
    ensures { IfOk result (λ v. v.items ≡ replicate n false) }
{
    vec![in alloc; false; n]
}

/// The nodes of either set.
pub fn united(mut out: Vec<bool>, other: &[bool]) -> Vec<bool>
    requires { length out.items ≡ length other.now }
    ensures { Pointwise out.items result.items (λ y m. m || marked other.now y) }
{
    filters::unite(other, &mut out);
    out
}

/// The nodes of both sets.
pub fn intersected(mut out: Vec<bool>, other: &[bool]) -> Vec<bool>
    requires { length out.items ≡ length other.now }
    ensures { Pointwise out.items result.items (λ y m. m && marked other.now y) }
{
    filters::intersect(other, &mut out);
    out
}

/// The nodes out of the set.
pub fn complemented(mut out: Vec<bool>) -> Vec<bool>
    ensures { Pointwise out.items result.items (λ y m. not m) }
{
    filters::complement(&mut out);
    out
}

pub fn all_marks(alloc: Global, n: usize) -> Result<Vec<bool>, AllocError>
    ensures { IfOk result (λ v. v.items ≡ replicate n true) }
{
    vec![in alloc; true; n]
}

// No marks but that of node x.
fn marked_at(alloc: Global, n: usize, x: usize, mark: bool) -> Result<Vec<bool>, AllocError>
    requires { x < n }
    ensures { IfOk result (λ v. v.items ≡ set (replicate n false) x mark) }
{
    let mut out = no_marks(alloc, n)?;
    out[x] = mark;
    Ok(out)
}

/// Whether some node is marked.
pub fn any(marks: &[bool]) -> bool
    ensures { result ≡ any_below (length marks.now) (marked marks.now) }
{
    let mut found = false;
    for mark in marks {
        found |= *mark;
    }
    found
}

impl Columns<'_> {
    pub fn node_count(&self) -> usize
        ensures { result ≡ length self.now.kinds.now }
    {
        self.kinds.len()
    }

    // The nodes under the marked ones, attributes too.
    fn under(&self, alloc: Global, marks: &[bool]) -> Result<Vec<bool>, AllocError>
        requires { length marks.now ≡ length self.now.kinds.now }
        ensures { IfOk result (λ v. Image (is_under self.now.parents.now) marks.now v.items) }
    {
        let mut out = no_marks(alloc, marks.len())?;
        walks::mark_children(self.parents, marks, &mut out);
        Ok(out)
    }

    // The nodes that the marked ones are under.
    fn over(&self, alloc: Global, marks: &[bool]) -> Result<Vec<bool>, AllocError>
        requires { length marks.now ≡ length self.now.kinds.now }
        ensures { IfOk result (λ v. Image (is_over self.now.parents.now) marks.now v.items) }
    {
        let mut out = no_marks(alloc, marks.len())?;
        walks::mark_parents(self.parents, marks, &mut out);
        Ok(out)
    }

    fn below(&self, alloc: Global, marks: &[bool]) -> Result<Vec<bool>, AllocError>
        requires { length marks.now ≡ length self.now.kinds.now }
        ensures { IfOk result (λ v. Image (is_below self.now.ends.now) marks.now v.items) }
    {
        let mut out = no_marks(alloc, marks.len())?;
        walks::mark_below(self.ends, marks, &mut out);
        Ok(out)
    }

    fn above(&self, alloc: Global, marks: &[bool]) -> Result<Vec<bool>, AllocError>
        requires { length marks.now ≡ length self.now.kinds.now }
        ensures { IfOk result (λ v. Image (is_above self.now.ends.now) marks.now v.items) }
    {
        let mut out = no_marks(alloc, marks.len())?;
        walks::mark_above(self.ends, marks, &mut out);
        Ok(out)
    }

    fn after(&self, alloc: Global, marks: &[bool]) -> Result<Vec<bool>, AllocError>
        requires { length marks.now ≡ length self.now.kinds.now }
        ensures { IfOk result (λ v. Image (is_after self.now.ends.now) marks.now v.items) }
    {
        let mut out = no_marks(alloc, marks.len())?;
        walks::mark_after(self.ends, marks, &mut out);
        Ok(out)
    }

    fn before(&self, alloc: Global, marks: &[bool]) -> Result<Vec<bool>, AllocError>
        requires { length marks.now ≡ length self.now.kinds.now }
        ensures { IfOk result (λ v. Image (is_before self.now.ends.now) marks.now v.items) }
    {
        let mut out = no_marks(alloc, marks.len())?;
        walks::mark_before(self.ends, marks, &mut out);
        Ok(out)
    }

    fn later(&self, alloc: Global, marks: &[bool]) -> Result<Vec<bool>, AllocError>
        requires { length marks.now ≡ length self.now.kinds.now }
        ensures { IfOk result (λ v. Image (is_later self.now.parents.now) marks.now v.items) }
    {
        let mut seen = no_marks(alloc, marks.len())?;
        let mut out = no_marks(alloc, marks.len())?;
        walks::mark_later(self.parents, marks, &mut seen, &mut out);
        Ok(out)
    }

    fn earlier(&self, alloc: Global, marks: &[bool]) -> Result<Vec<bool>, AllocError>
        requires { length marks.now ≡ length self.now.kinds.now }
        ensures { IfOk result (λ v. Image (is_earlier self.now.parents.now) marks.now v.items) }
    {
        let mut seen = no_marks(alloc, marks.len())?;
        let mut out = no_marks(alloc, marks.len())?;
        walks::mark_earlier(self.parents, marks, &mut seen, &mut out);
        Ok(out)
    }

    // The set without attributes.
    fn without_attributes(&self, mut out: Vec<bool>) -> Vec<bool>
        requires { length out.items ≡ length self.now.kinds.now }
        ensures { Pointwise out.items result.items (λ y m. m && not (eqb (get_or self.now.kinds.now y 0) 5)) }
    {
        filters::leave_attributes(self.kinds, &mut out);
        out
    }

    // The attributes of the set.
    fn attributes(&self, mut out: Vec<bool>) -> Vec<bool>
        requires { length out.items ≡ length self.now.kinds.now }
        ensures { Pointwise out.items result.items (λ y m. m && eqb (get_or self.now.kinds.now y 0) 5) }
    {
        filters::keep_kind(self.kinds, NodeKind::Attribute, &mut out);
        out
    }

    // The nodes of the set that are the test's.
    fn tested(&self, test: StepTest, mut out: Vec<bool>) -> Vec<bool>
        requires { length out.items ≡ length self.now.kinds.now }
        ensures { Pointwise out.items result.items
            (λ y m. m && fits test (get_or self.now.kinds.now y 0) (get_or self.now.names.now y 0)) }
    {
        filters::keep_test(self.kinds, self.names, test, &mut out);
        out
    }

    // The marked nodes that are no attributes.
    fn others(&self, alloc: Global, marks: &[bool]) -> Result<Vec<bool>, AllocError>
        requires { length marks.now ≡ length self.now.kinds.now }
        ensures { IfOk result (λ v. Pointwise marks.now v.items
            (λ y m. m && not (eqb (get_or self.now.kinds.now y 0) 5))) }
    {
        let mut out = Vec::from_slice(alloc, marks)?;
        filters::leave_attributes(self.kinds, &mut out);
        Ok(out)
    }

    // The nodes on the axis of some marked node.
    fn on_axis(&self, alloc: Global, axis: Axis, marks: &[bool]) -> Result<Vec<bool>, AllocError>
        requires { length marks.now ≡ length self.now.kinds.now }
        ensures { IfOk result (λ v. Image (on_axis (axis_number axis) (doc self.now)) marks.now v.items) }
    {
        match axis {
            Axis::Itself => Vec::from_slice(alloc, marks),
            Axis::Parent => self.over(alloc, marks),
            Axis::Ancestor => self.above(alloc, marks),
            Axis::AncestorOrSelf => {
                let out = self.above(alloc, marks)?;
                Ok(united(out, marks))
            }
            Axis::DescendantOrSelf => {
                let below = self.below(alloc, marks)?;
                let out = self.without_attributes(below);
                Ok(united(out, marks))
            }
            Axis::Attribute => {
                let out = self.under(alloc, marks)?;
                Ok(self.attributes(out))
            }
            Axis::Child => {
                let out = self.under(alloc, marks)?;
                Ok(self.without_attributes(out))
            }
            Axis::Descendant => {
                let out = self.below(alloc, marks)?;
                Ok(self.without_attributes(out))
            }
            Axis::Following => {
                let out = self.after(alloc, marks)?;
                Ok(self.without_attributes(out))
            }
            Axis::Preceding => {
                let out = self.before(alloc, marks)?;
                Ok(self.without_attributes(out))
            }
            Axis::FollowingSibling => {
                let others = self.others(alloc, marks)?;
                let out = self.later(alloc, &others)?;
                Ok(self.without_attributes(out))
            }
            Axis::PrecedingSibling => {
                let others = self.others(alloc, marks)?;
                let out = self.earlier(alloc, &others)?;
                Ok(self.without_attributes(out))
            }
        }
    }

    // The nodes that have some marked node on the axis.
    fn back_on_axis(
        &self,
        alloc: Global,
        axis: Axis,
        marks: &[bool],
    ) -> Result<Vec<bool>, AllocError>
        requires { length marks.now ≡ length self.now.kinds.now }
        ensures { IfOk result (λ v. Image (λ x y. on_axis (axis_number axis) (doc self.now) y x) marks.now v.items) }
    {
        match axis {
            Axis::Itself => Vec::from_slice(alloc, marks),
            Axis::Parent => self.under(alloc, marks),
            Axis::Ancestor => self.below(alloc, marks),
            Axis::AncestorOrSelf => {
                let out = self.below(alloc, marks)?;
                Ok(united(out, marks))
            }
            Axis::DescendantOrSelf => {
                let others = self.others(alloc, marks)?;
                let out = self.above(alloc, &others)?;
                Ok(united(out, marks))
            }
            Axis::Attribute => {
                let all = Vec::from_slice(alloc, marks)?;
                let kept = self.attributes(all);
                self.over(alloc, &kept)
            }
            Axis::Child => {
                let others = self.others(alloc, marks)?;
                self.over(alloc, &others)
            }
            Axis::Descendant => {
                let others = self.others(alloc, marks)?;
                self.above(alloc, &others)
            }
            Axis::Following => {
                let others = self.others(alloc, marks)?;
                self.before(alloc, &others)
            }
            Axis::Preceding => {
                let others = self.others(alloc, marks)?;
                self.after(alloc, &others)
            }
            Axis::FollowingSibling => self.on_axis(alloc, Axis::PrecedingSibling, marks),
            Axis::PrecedingSibling => self.on_axis(alloc, Axis::FollowingSibling, marks),
        }
    }

    /// The nodes that the step selects from some marked node.
    pub fn step(
        &self,
        alloc: Global,
        axis: u16,
        test: u16,
        name: u16,
        marks: &[bool],
    ) -> Result<Vec<bool>, AllocError>
        requires { length marks.now ≡ length self.now.kinds.now }
        ensures { IfOk result (λ v. Image (selects (doc self.now) (AxisStep axis test name)) marks.now v.items) }
    {
        let Ok(on) = Axis::try_from(axis) else {
            return no_marks(alloc, marks.len());
        };
        let Some(test) = StepTest::new(axis, test, usize::from(name)) else {
            return no_marks(alloc, marks.len());
        };
        let out = self.on_axis(alloc, on, marks)?;
        Ok(self.tested(test, out))
    }

    /// The nodes from which the step selects some marked node.
    pub fn step_back(
        &self,
        alloc: Global,
        axis: u16,
        test: u16,
        name: u16,
        marks: &[bool],
    ) -> Result<Vec<bool>, AllocError>
        requires { length marks.now ≡ length self.now.kinds.now }
        ensures { IfOk result (λ v. Image (λ x y. selects (doc self.now) (AxisStep axis test name) y x)
            marks.now v.items) }
    {
        let Ok(on) = Axis::try_from(axis) else {
            return no_marks(alloc, marks.len());
        };
        let Some(test) = StepTest::new(axis, test, usize::from(name)) else {
            return no_marks(alloc, marks.len());
        };
        let all = Vec::from_slice(alloc, marks)?;
        let kept = self.tested(test, all);
        self.back_on_axis(alloc, on, &kept)
    }

    /// The root, if some node is marked.
    pub fn root(&self, alloc: Global, marks: &[bool]) -> Result<Vec<bool>, AllocError>
        requires { length marks.now ≡ length self.now.kinds.now }
        ensures { IfOk result (λ v. Image (selects (doc self.now) Root) marks.now v.items) }
    {
        marked_at(alloc, marks.len(), 0, any(marks))
    }

    /// Every node, if the root is marked.
    pub fn root_back(&self, alloc: Global, marks: &[bool]) -> Result<Vec<bool>, AllocError>
        requires { length marks.now ≡ length self.now.kinds.now }
        ensures { IfOk result (λ v. Image (λ x y. selects (doc self.now) Root y x) marks.now v.items) }
    {
        if marks[0] {
            all_marks(alloc, marks.len())
        } else {
            no_marks(alloc, marks.len())
        }
    }
}
