// The check of a document, and where the subtree of each row ends.
ghost use Rattle.std.specs.Prelude.{◌≡◌, suc, ◌^◌, ◌<◌, length, replicate};
ghost use Rattle.xpath.specs.Document.{kind_at, parent_at, name_at, attribute_placed, row_ok_by};
ghost use Rattle.xpath.specs.Climb.{climb_met, parents_taken};
ghost use Rattle.xpath.specs.represent.Check.{ClimbMade, Placed, closed_before};
ghost use Rattle.documents.specs.Checks.{listed, FirstBad};
ghost use Rattle.documents.specs.Documents.{rows_in, doc, ChecksTo};

use crate::document::Document;
use crate::document_error::DocumentError;
use crate::rows::Rows;
use crate::unchecked::Unchecked;
use common::node_kind;
use std::alloc::Global;

impl Unchecked<'_> {
    fn kind_at(&self, y: usize) -> u16
        ensures { result ≡ kind_at (listed self.now) y }
    {
        if y < self.kinds.len() {
            u16::from(self.kinds[y])
        } else {
            node_kind::ROOT
        }
    }

    fn parent_at(&self, y: usize) -> usize
        ensures { result ≡ parent_at (listed self.now) y }
    {
        if y < self.parents.len() {
            self.parents[y] as usize
        } else {
            0
        }
    }

    fn name_at(&self, y: usize) -> u16
        ensures { result ≡ name_at (listed self.now) y }
    {
        if y < self.names.len() {
            self.names[y]
        } else {
            0
        }
    }

    // Whether the climb from row y toward row x meets it. It closes at `end` the subtree of each row that it leaves.
    fn climb_toward(&self, x: usize, y: usize, end: u32, ends: &mut [u32]) -> bool
        requires { y < length ends.old }
        ensures { ClimbMade (listed self.now) x y end ends.old result (parents_taken (listed self.now) x y) ends.new }
    {
        let mut at = y;
        while x < at {
            let parent = self.parent_at(at);
            if at <= parent {
                return false;
            }
            ends[at] = end;
            at = parent;
        }
        x < y && at == x
    }

    // Whether an attribute in row n + 1 stands where it must.
    fn attribute_placed(&self, n: usize) -> bool
        requires { n < 2 ^ 32 }
        ensures { result ≡ attribute_placed (listed self.now) n }
    {
        let parent = self.parent_at(n + 1);
        self.kind_at(parent) == node_kind::ELEMENT
            && (parent == n
                || self.kind_at(n) == node_kind::ATTRIBUTE && self.parent_at(n) == parent)
    }

    // Whether row `parent` is row n or an ancestor of it. It closes the subtrees that end there.
    #[tactic(auto, using(xpath::proofs::Rows::same_placed, xpath::proofs::Rows::climb_placed))]
    fn is_placed(&self, parent: usize, n: usize, ends: &mut [u32]) -> bool
        requires n_in_bounds { n < length ends.old }
        requires n_fits { suc n < 2 ^ 32 }
        ensures { Placed (listed self.now) parent n ends.old result ends.new }
    {
        let end = n + 1;
        parent == n || self.climb_toward(parent, n, end as u32, ends)
    }

    // Whether row n + 1 is as it must be. It closes the subtrees that end before it.
    fn later_row_ok(&self, n: usize, ends: &mut [u32]) -> bool
        requires n_in_bounds { n < length ends.old }
        requires n_fits { suc n < 2 ^ 32 }
        ensures value { result ≡ row_ok_by climb_met (listed self.now) (suc n) }
        ensures ends_after { ends.new ≡ closed_before (listed self.now) (suc n) ends.old }
    {
        let kind = self.kind_at(n + 1);
        let parent = self.parent_at(n + 1);
        self.is_placed(parent, n, ends)
            && self.kind_at(parent) <= node_kind::ELEMENT
            && xpath::kind_and_name_ok(kind, self.name_at(n + 1))
            && (kind != node_kind::ATTRIBUTE || self.attribute_placed(n))
    }

    fn root_ok(&self) -> bool
        ensures { result ≡ row_ok_by climb_met (listed self.now) 0 }
    {
        self.kind_at(0) == node_kind::ROOT && self.parent_at(0) == 0 && self.name_at(0) == 0
    }

    // The first bad row, if there is one. If there is none, each subtree that ends at a row is closed there. It asks
    // for one row or more, and for the number of rows as each end, which is that of the subtrees that none closes.
    fn first_bad_row(&self, ends: &mut [u32]) -> Option<usize>
        requires some { 0 < length self.now.kinds.now }
        requires few { length self.now.kinds.now < 2 ^ 32 }
        requires open { ends.old ≡ replicate (length self.now.kinds.now) (length self.now.kinds.now) }
        ensures { FirstBad self.now.kinds.now self.now.parents.now self.now.names.now result ends.new }
    {
        if !self.root_ok() {
            return Some(0);
        }
        for i in 1..self.kinds.len() {
            if !self.later_row_ok(i - 1, ends) {
                return Some(i);
            }
        }
        None
    }
}

impl Rows {
    fn unchecked(&self) -> Unchecked<'_>
        ensures kinds { result.kinds.now ≡ self.now.kinds.items }
        ensures parents { result.parents.now ≡ self.now.parents.items }
        ensures names { result.names.now ≡ self.now.names.items }
    {
        Unchecked {
            kinds: &self.kinds,
            parents: &self.parents,
            names: &self.names,
        }
    }
}

impl Document {
    /// How many nodes the document has.
    pub fn node_count(&self) -> usize
        ensures { result ≡ length (doc self.now) }
    {
        self.ends.len()
    }

    /// The document of the rows, if none is bad.
    pub fn check(rows: Rows, alloc: Global) -> Result<Document, DocumentError>
        ensures { ChecksTo (rows_in rows) result }
    {
        let n = rows.kinds.len();
        if n == 0 {
            return Err(DocumentError::BadDocument(0));
        }
        if n > u32::MAX as usize {
            return Err(DocumentError::BadDocument(u32::MAX));
        }
        let mut ends = vec![in alloc; n as u32; n]?;
        match rows.unchecked().first_bad_row(&mut ends) {
            Some(bad) => Err(DocumentError::BadDocument(bad as u32)),
            None => {
                let Rows {
                    kinds,
                    parents,
                    names,
                } = rows;
                Ok(Document {
                    kinds,
                    parents,
                    names,
                    ends,
                })
            }
        }
    }
}
