// The check of columns, row by row. The number of a name is any number but 0: a document has as many names as it has.
ghost use Rattle.std.specs.Prelude.{◌≡◌, ℕ, true, suc, ◌<◌, length, get_or};
ghost use Rattle.xpath.specs.Document.{kind_and_name_ok, row_ok};
ghost use Rattle.xml_document.specs.Renumbering.{Renumbered};
ghost use Rattle.xml_document.specs.Xml.{AreXml, text_inside, texts_apart, inside_by, apart_by, document_element_by};
ghost use Rattle.xml_document.specs.private.Checks.{Passes, Counts, AllOk, reaches, placed_by};

use crate::columns::Columns;
use common::node_kind::NodeKind;

const ELEMENT: u8 = NodeKind::Element as u8;

const TEXT: u8 = NodeKind::Text as u8;

const COMMENT: u8 = NodeKind::Comment as u8;

const INSTRUCTION: u8 = NodeKind::Instruction as u8;

const ATTRIBUTE: u8 = NodeKind::Attribute as u8;

// A row, by its numbers.
#[derive(Clone, Copy)]
struct Row {
    kind: u8,
    parent: usize,
    name: u32,
}

// Whether a row after row 0 has a name where it must, and none where it must not.
#[tactic(auto, unfolding(xpath::specs::Document::kind_and_name_ok))]
fn is_named(kind: u8, name: u32) -> bool
    ensures { result ≡ true → (m : ℕ) → Renumbered name m → kind_and_name_ok kind m ≡ true }
{
    match kind {
        ELEMENT | ATTRIBUTE | INSTRUCTION => name != 0,
        TEXT | COMMENT => name == 0,
        _ => false,
    }
}

// Whether an attribute behind row n, `before`, stands where it must: its parent is `of`.
#[tactic(auto, unfolding(crate::specs::private::Checks::placed_by))]
fn is_attribute_placed(parent: usize, of: Row, n: usize, before: Row) -> bool
    ensures { result ≡ placed_by parent of.kind n before.kind before.parent }
{
    of.kind == ELEMENT && (parent == n || before.kind == ATTRIBUTE && before.parent == parent)
}

// Whether a row, if it is a text, stands in an element.
#[tactic(auto, unfolding(crate::specs::Xml::inside_by))]
fn is_text_inside(row: Row) -> bool
    ensures { result ≡ inside_by row.kind row.parent }
{
    row.kind != TEXT || row.parent != 0
}

// Whether a row and the one after it are no adjacent texts.
#[tactic(auto, unfolding(crate::specs::Xml::apart_by))]
fn are_texts_apart(row: Row, next: Row) -> bool
    ensures { result ≡ apart_by row.kind row.parent next.kind next.parent }
{
    row.kind != TEXT || next.kind != TEXT || row.parent != next.parent
}

#[tactic(auto, unfolding(crate::specs::Xml::document_element_by))]
fn is_document_element(row: Row) -> bool
    ensures { result ≡ document_element_by row.kind row.parent }
{
    row.kind == ELEMENT && row.parent == 0
}

impl Columns<'_> {
    fn row(&self, n: usize) -> Row
        requires { n < length self.now.kinds.now }
        ensures kind { result.kind ≡ get_or self.now.kinds.now n 0 }
        ensures parent { result.parent ≡ get_or self.now.parents.now n 0 }
        ensures name { result.name ≡ get_or self.now.names.now n 0 }
    {
        Row {
            kind: self.kinds[n],
            parent: self.parents[n] as usize,
            name: self.names[n],
        }
    }

    // Whether row `parent` is row n or an ancestor of it.
    fn is_placed(&self, parent: usize, n: usize) -> bool
        requires { n < length self.now.kinds.now }
        ensures { result ≡ true → Passes self.now (reaches parent n) }
    {
        let mut at = n;
        while parent < at {
            let next = self.parents[at] as usize;
            if at <= next {
                return false;
            }
            at = next;
        }
        at == parent
    }

    // Whether row 0 is the root.
    fn is_root_ok(&self) -> bool
        requires { 0 < length self.now.kinds.now }
        ensures { result ≡ true → Passes self.now (λ d. row_ok d 0) }
    {
        let row = self.row(0);
        if row.kind != 0 {
            return false;
        }
        if row.parent != 0 {
            return false;
        }
        row.name == 0
    }

    // Whether row n + 1 is a row of a document.
    fn is_row_ok(&self, n: usize) -> bool
        requires { suc n < length self.now.kinds.now }
        ensures { result ≡ true → Passes self.now (λ d. row_ok d (suc n)) }
    {
        let before = self.row(n);
        let row = self.row(n + 1);
        if n < row.parent {
            return false;
        }
        let placed = self.is_placed(row.parent, n);
        if !placed {
            return false;
        }
        let of = self.row(row.parent);
        if of.kind > ELEMENT {
            return false;
        }
        let named = is_named(row.kind, row.name);
        if !named {
            return false;
        }
        if row.kind == ATTRIBUTE {
            is_attribute_placed(row.parent, of, n, before)
        } else {
            true
        }
    }

    // Whether row n + 1, if it is a text, stands in an element.
    fn is_inside(&self, n: usize) -> bool
        requires { suc n < length self.now.kinds.now }
        ensures { result ≡ true → Passes self.now (λ d. text_inside d (suc n)) }
    {
        let row = self.row(n + 1);
        is_text_inside(row)
    }

    // Whether rows n and n + 1 are no adjacent texts.
    fn is_apart(&self, n: usize) -> bool
        requires { suc n < length self.now.kinds.now }
        ensures { result ≡ true → Passes self.now (λ d. texts_apart d n) }
    {
        let row = self.row(n);
        let next = self.row(n + 1);
        are_texts_apart(row, next)
    }

    // How many elements are children of the root.
    fn document_element_count(&self) -> usize
        ensures { Counts self.now (length self.now.kinds.now) result }
    {
        let mut count = 0usize;
        for n in 0..self.kinds.len() {
            let row = self.row(n);
            let is_one = is_document_element(row);
            if is_one {
                count += 1;
            }
        }
        count
    }

    // Whether the rows are, texts as XML has them.
    fn are_rows_ok(&self) -> bool
        ensures { result ≡ true → AllOk self.now }
    {
        let count = self.kinds.len();
        if count == 0 {
            return false;
        }
        let root = self.is_root_ok();
        if !root {
            return false;
        }
        for n in 0..count - 1 {
            let placed = self.is_row_ok(n);
            if !placed {
                return false;
            }
            let inside = self.is_inside(n);
            if !inside {
                return false;
            }
            let apart = self.is_apart(n);
            if !apart {
                return false;
            }
        }
        true
    }

    /// Whether the columns are a document that XML can have. Where the answer is no, nothing is said.
    pub fn is_xml(&self) -> bool
        ensures { result ≡ true → AreXml self.now.kinds.now self.now.parents.now self.now.names.now }
    {
        let rows = self.are_rows_ok();
        if !rows {
            return false;
        }
        self.document_element_count() == 1
    }
}
