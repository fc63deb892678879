// What an evaluation reads.
ghost use Rattle.std.specs.Prelude.{◌≡◌, ◌<◌, length};
ghost use Rattle.xpath.specs.private.Checked.{doc};
ghost use Rattle.terms.specs.Row.{row_at, table_of};
ghost use Rattle.terms.specs.represent.RowTypes.{row_of};

use terms::Row;
use xpath::Checked;

/// A table of rows, and a document that was checked.
#[derive(Clone, Copy)]
pub struct Lent<'a> {
    pub rows: &'a [u16],
    pub document: Checked<'a>,
}

/// A node of the document, from which the first `top` rows are evaluated.
#[derive(Clone, Copy)]
pub struct Context<'a> {
    pub lent: &'a Lent<'a>,
    pub top: usize,
    pub x: usize,
    pub ghost node: { x < length (doc lent.now.document) },
}

impl<'a> Context<'a> {
    /// How many nodes the document has.
    pub fn node_count(&self) -> usize
        ensures { result ≡ length (doc self.now.lent.now.document) }
    {
        let document = self.lent.document;
        xpath::node_count(document.numbers)
    }

    pub fn row_at(&self, r: usize) -> Row
        ensures { row_of result ≡ row_at (table_of self.now.lent.now.rows.now) r }
    {
        let lent = self.lent;
        terms::row_at(lent.rows, r)
    }

    /// The same rows from node z. Each field by name, here and below: beside a ghost field the check doesn't cover
    /// `..`.
    pub fn at(&self, z: usize) -> Context<'a>
        requires { z < length (doc self.now.lent.now.document) }
        ensures lent { result.lent ≡ self.now.lent }
        ensures top { result.top ≡ self.now.top }
        ensures x { result.x ≡ z }
    {
        Context {
            lent: self.lent,
            top: self.top,
            x: z,
        }
    }

    /// The rows before row r from the same node.
    pub fn below(&self, r: usize) -> Context<'a>
        ensures lent { result.lent ≡ self.now.lent }
        ensures top { result.top ≡ r }
        ensures x { result.x ≡ self.now.x }
    {
        Context {
            lent: self.lent,
            top: r,
            x: self.x,
        }
    }
}
