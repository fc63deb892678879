// Which rows are shared, and what is noted and found again of them.
ghost use Rattle.std.specs.Prelude.{◌≡◌, length, IfOk, IfSome};
ghost use Rattle.set_selection.specs.Memories.{slot, Right, Fresh, Has, Noted};

use crate::memory::{Found, Memories, Memory, Slot};
use common::row_kind::RowKind;
use std::alloc::{AllocError, Global};

// One use more of row r, if it is one of those counted.
fn add_use(uses: &mut [u8], r: u16)
    ensures { length uses.new ≡ length uses.old }
{
    let r = usize::from(r);
    if r < uses.len() {
        uses[r] = uses[r].saturating_add(1);
    }
}

// How often each of the first `count` rows is an operand of one of them; 255 where it is more often.
fn count_uses(alloc: Global, rows: &[u16], count: usize) -> Result<Vec<u8>, AllocError>
    ensures { IfOk result (λ v. length v.items ≡ count) }
{
    let mut uses = vec![in alloc; 0u8; count]?;
    for r in 0..count {
        let row = terms::row_at(rows, r);
        match row.read_kind() {
            Some(
                RowKind::Union
                | RowKind::Composition
                | RowKind::Filter
                | RowKind::And
                | RowKind::Or
                | RowKind::Inclusion,
            ) => {
                add_use(&mut uses, row.a);
                add_use(&mut uses, row.b);
            }
            Some(RowKind::Not) => add_use(&mut uses, row.a),
            _ => {}
        }
    }
    Ok(uses)
}

impl Slot {
    // Of a row with that many uses, with nothing found.
    fn with_uses(count: u8) -> Slot
        ensures { Right (λ from to. ⊥) result }
    {
        if count <= 1 {
            Slot::Single
        } else {
            Slot::Shared
        }
    }
}

impl Memory {
    // With nothing found.
    fn new(alloc: Global, uses: &[u8]) -> Result<Memory, AllocError>
        ensures { IfOk result (λ m. Fresh m) }
    {
        let mut slots = Vec::new(alloc);
        for count in uses {
            slots.push(Slot::with_uses(*count))?;
        }
        Ok(Memory { slots })
    }

    /// What was last found for row r, if it was evaluated from the same marks.
    pub fn recall(&self, r: usize, from: &[bool]) -> Option<&[bool]>
        ensures { IfSome result (λ to. Has (slot self.now r) from.now to.now) }
    {
        if self.slots.len() <= r {
            return None;
        }
        match &self.slots[r] {
            Slot::Last(found) => {
                if found.from.as_slice() == from {
                    Some(&found.to)
                } else {
                    None
                }
            }
            _ => None,
        }
    }

    /// Notes what was found for row r, if it is shared.
    pub fn note(
        &mut self,
        alloc: Global,
        r: usize,
        from: &[bool],
        to: &[bool],
    ) -> Result<(), AllocError>
        ensures { Noted self.old self.new r from.now to.now }
    {
        if r < self.slots.len() && !matches!(self.slots[r], Slot::Single) {
            let from = Vec::from_slice(alloc, from)?;
            let to = Vec::from_slice(alloc, to)?;
            self.slots[r] = Slot::Last(Found { from, to });
        }
        Ok(())
    }
}

impl Memories {
    /// For the first `count` rows, with nothing found.
    pub fn new(alloc: Global, rows: &[u16], count: usize) -> Result<Memories, AllocError>
        ensures { IfOk result (λ m. Fresh m.forward × Fresh m.back × Fresh m.holding) }
    {
        let uses = count_uses(alloc, rows, count)?;
        Ok(Memories {
            forward: Memory::new(alloc, &uses)?,
            back: Memory::new(alloc, &uses)?,
            holding: Memory::new(alloc, &uses)?,
        })
    }
}
