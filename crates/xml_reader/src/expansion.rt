// What entities and defaults stand for, counted against the limits, and which entities are open.
use crate::limits::{EXPANSION_FACTOR, FREE_EXPANSION};
use std::alloc::Global;
use xml_text::reason::{Reason, Stop};

#[derive(Debug, Drop)]
pub struct Expansion {
    used: usize,
    most: usize,
    // by an entity's number, whether it is open
    is_open: Vec<bool>,
}

impl Expansion {
    /// For a document of so many bytes.
    pub fn new(alloc: Global, size: usize) -> Expansion {
        Expansion {
            used: 0,
            most: size.saturating_mul(EXPANSION_FACTOR).max(FREE_EXPANSION),
            is_open: Vec::new(alloc),
        }
    }

    /// Counts the bytes that an entity or a default stands for, and one for the reference.
    pub fn spend(&mut self, count: usize) -> Result<(), Stop> {
        self.used = self.used.saturating_add(count).saturating_add(1);
        if self.used > self.most {
            return Err(Stop::At(0, Reason::TooMuchExpansion));
        }
        Ok(())
    }

    /// Opens an entity that stands for so many bytes.
    pub fn open(&mut self, number: u32, count: usize) -> Result<(), Stop> {
        self.spend(count)?;
        for _ in self.is_open.len()..(number as usize).saturating_add(1) {
            self.is_open.push(false)?;
        }
        if let Some(is_open) = self.is_open.get_mut(number as usize) {
            if *is_open {
                return Err(Stop::At(0, Reason::RecursiveEntity));
            }
            *is_open = true;
        }
        Ok(())
    }

    /// Closes an entity.
    pub fn close(&mut self, number: u32) {
        if let Some(is_open) = self.is_open.get_mut(number as usize) {
            *is_open = false;
        }
    }
}
