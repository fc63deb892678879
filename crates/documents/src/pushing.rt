// Rows one after the other.
ghost use Rattle.std.specs.Prelude.{◌≡◌, ◌++◌, ◌∷◌, [], OnOk, OnErr};
ghost use Rattle.xpath.specs.Document.{node};
ghost use Rattle.documents.specs.Documents.{rows_in};

use crate::rows::Rows;
use std::alloc::{AllocError, Global};

impl Rows {
    /// No rows.
    pub fn new(alloc: Global) -> Rows
        ensures { rows_in result ≡ [] }
    {
        Rows {
            kinds: Vec::new(alloc),
            parents: Vec::new(alloc),
            names: Vec::new(alloc),
        }
    }

    /// Puts a row after the others. Where memory runs out, the rows are as they were.
    pub fn push(&mut self, kind: u8, parent: u32, name: u16) -> Result<(), AllocError>
        ensures pushed { OnOk result (rows_in self.new ≡ rows_in self.old ++ node kind parent name ∷ []) }
        ensures kept { OnErr result (rows_in self.new ≡ rows_in self.old) }
    {
        let count = self.kinds.len();
        self.kinds.push(kind)?;
        if self.parents.push(parent).is_err() {
            self.kinds.truncate(count);
            return Err(AllocError);
        }
        if self.names.push(name).is_err() {
            self.parents.truncate(count);
            self.kinds.truncate(count);
            return Err(AllocError);
        }
        Ok(())
    }
}
