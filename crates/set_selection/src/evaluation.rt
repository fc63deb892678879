// The evaluation of paths and qualifiers by their rows, each from or at all nodes of a set at once.
ghost use Rattle.std.specs.Prelude.{◌≡◌, ◌<◌, ℕ, ◌&&◌, ◌||◌, not, true, take, length, replicate, IfOk};
ghost use Rattle.common.specs.Bounded.{any_below, all_below};
ghost use Rattle.xpath.specs.Meaning.{selects};
ghost use Rattle.xpath.specs.Term.{Void, Union, Composition, Filter, In};
ghost use Rattle.terms.specs.Row.{table_of};
ghost use Rattle.terms.specs.Terms.{terms, path_at, path_in, qualifier_in, term_by, as_path, as_qualifier};
ghost use Rattle.terms.specs.represent.RowTypes.{row_of};
ghost use Rattle.set_selection.specs.Sets.{Image, marked};
ghost use Rattle.documents.specs.Documents.{doc};
ghost use Rattle.set_selection.specs.Evaluations.{Only, document_in, rows_in, terms_before, Holding};
ghost use Rattle.set_selection.specs.Memories.{Remembered};

use crate::columns::Columns;
use crate::memory::Memories;
use crate::steps::{all_marks, complemented, intersected, no_marks, united};
use common::row_kind::RowKind;
use documents::Document;
use std::alloc::{AllocError, Global};
use terms::Row;

// A table of rows, and a document.
#[derive(Clone, Copy)]
struct Evaluation<'a> {
    rows: &'a [u16],
    columns: &'a Columns<'a>,
}

// Whether row r is the void path; not of every row that selects nothing.
fn is_void(rows: &[u16], r: usize) -> bool
    ensures { (top : ℕ) → result ≡ true → path_in (terms (take top (table_of rows.now))) r ≡ Void }
{
    matches!(terms::row_at(rows, r).read_kind(), Some(RowKind::Void))
}

/// The set of node x alone. It asks for a node among the n.
pub fn only(alloc: Global, n: usize, x: usize) -> Result<Vec<bool>, AllocError>
    requires { x < n }
    ensures { IfOk result (λ v. Only n x v.items) }
{
    let mut out = no_marks(alloc, n)?;
    out[x] = true;
    Ok(out)
}

// Whether each node that a marks is marked in b.
fn is_included(a: &[bool], b: &[bool]) -> bool
    requires { length a.now ≡ length b.now }
    ensures { result ≡ all_below (length a.now) (λ y. not (marked a.now y) || marked b.now y) }
{
    let mut included = true;
    for y in 0..a.len() {
        included &= !a[y] | b[y];
    }
    included
}

impl Evaluation<'_> {
    // What the path in row r selects from the marked nodes; a row past the first `top` is read as the void path.
    #[cycle(evaluation)]
    fn select(
        &self,
        alloc: Global,
        top: usize,
        r: usize,
        marks: &[bool],
        memories: &mut Memories,
    ) -> Result<Vec<bool>, AllocError>
        requires size { length marks.now ≡ length self.now.columns.now.kinds.now }
        requires remembered { Remembered (rows_in self.now) (document_in self.now) memories.old }
        ensures found { IfOk result (λ v. Image
            (selects (document_in self.now) (path_in (terms_before self.now top) r)) marks.now v.items) }
        ensures remembered { Remembered (rows_in self.now) (document_in self.now) memories.new }
    {
        if top <= r {
            return no_marks(alloc, marks.len());
        }
        if let Some(found) = memories.forward.recall(r, marks) {
            return Vec::from_slice(alloc, found);
        }
        let out = self.select_row(alloc, r, terms::row_at(self.rows, r), marks, memories)?;
        memories.forward.note(alloc, r, marks, &out)?;
        Ok(out)
    }

    #[cycle(evaluation)]
    fn select_row(
        &self,
        alloc: Global,
        top: usize,
        row: Row,
        marks: &[bool],
        memories: &mut Memories,
    ) -> Result<Vec<bool>, AllocError>
        requires size { length marks.now ≡ length self.now.columns.now.kinds.now }
        requires remembered { Remembered (rows_in self.now) (document_in self.now) memories.old }
        ensures found { IfOk result (λ v. Image
            (selects (document_in self.now) (as_path (term_by (terms_before self.now top) (row_of row))))
            marks.now v.items) }
        ensures remembered { Remembered (rows_in self.now) (document_in self.now) memories.new }
    {
        let a = usize::from(row.a);
        let b = usize::from(row.b);
        match row.read_kind() {
            Some(RowKind::Union) => {
                let out = self.select(alloc, top, a, marks, memories)?;
                let other = self.select(alloc, top, b, marks, memories)?;
                Ok(united(out, &other))
            }
            Some(RowKind::Composition) => {
                let first = self.select(alloc, top, a, marks, memories)?;
                self.select(alloc, top, b, &first, memories)
            }
            Some(RowKind::Filter) => {
                let out = self.select(alloc, top, a, marks, memories)?;
                let holding = self.hold(alloc, top, b, memories)?;
                Ok(intersected(out, &holding))
            }
            Some(RowKind::Step) => self.columns.step(alloc, row.a, row.b, row.c, marks),
            Some(RowKind::Root) => self.columns.root(alloc, marks),
            _ => no_marks(alloc, marks.len()),
        }
    }

    // The nodes from which the path in row r selects some marked node.
    #[cycle(evaluation)]
    fn select_back(
        &self,
        alloc: Global,
        top: usize,
        r: usize,
        marks: &[bool],
        memories: &mut Memories,
    ) -> Result<Vec<bool>, AllocError>
        requires size { length marks.now ≡ length self.now.columns.now.kinds.now }
        requires remembered { Remembered (rows_in self.now) (document_in self.now) memories.old }
        ensures found { IfOk result (λ v. Image
            (λ x y. selects (document_in self.now) (path_in (terms_before self.now top) r) y x) marks.now v.items) }
        ensures remembered { Remembered (rows_in self.now) (document_in self.now) memories.new }
    {
        if top <= r {
            return no_marks(alloc, marks.len());
        }
        if let Some(found) = memories.back.recall(r, marks) {
            return Vec::from_slice(alloc, found);
        }
        let out = self.select_row_back(alloc, r, terms::row_at(self.rows, r), marks, memories)?;
        memories.back.note(alloc, r, marks, &out)?;
        Ok(out)
    }

    #[cycle(evaluation)]
    fn select_row_back(
        &self,
        alloc: Global,
        top: usize,
        row: Row,
        marks: &[bool],
        memories: &mut Memories,
    ) -> Result<Vec<bool>, AllocError>
        requires size { length marks.now ≡ length self.now.columns.now.kinds.now }
        requires remembered { Remembered (rows_in self.now) (document_in self.now) memories.old }
        ensures found { IfOk result (λ v. Image
            (λ x y. selects (document_in self.now) (as_path (term_by (terms_before self.now top) (row_of row))) y x)
            marks.now v.items) }
        ensures remembered { Remembered (rows_in self.now) (document_in self.now) memories.new }
    {
        let a = usize::from(row.a);
        let b = usize::from(row.b);
        match row.read_kind() {
            Some(RowKind::Union) => {
                let out = self.select_back(alloc, top, a, marks, memories)?;
                let other = self.select_back(alloc, top, b, marks, memories)?;
                Ok(united(out, &other))
            }
            Some(RowKind::Composition) => {
                let last = self.select_back(alloc, top, b, marks, memories)?;
                self.select_back(alloc, top, a, &last, memories)
            }
            Some(RowKind::Filter) => {
                let holding = self.hold(alloc, top, b, memories)?;
                let kept = intersected(holding, marks);
                self.select_back(alloc, top, a, &kept, memories)
            }
            Some(RowKind::Step) => self.columns.step_back(alloc, row.a, row.b, row.c, marks),
            Some(RowKind::Root) => self.columns.root_back(alloc, marks),
            _ => no_marks(alloc, marks.len()),
        }
    }

    // The nodes at which the qualifier in row r is true; a row past the first `top` is read as false.
    #[cycle(evaluation)]
    fn hold(
        &self,
        alloc: Global,
        top: usize,
        r: usize,
        memories: &mut Memories,
    ) -> Result<Vec<bool>, AllocError>
        requires remembered { Remembered (rows_in self.now) (document_in self.now) memories.old }
        ensures found { IfOk result (λ v. Holding (document_in self.now)
            (qualifier_in (terms_before self.now top) r) v.items) }
        ensures remembered { Remembered (rows_in self.now) (document_in self.now) memories.new }
    {
        if top <= r {
            return no_marks(alloc, self.columns.node_count());
        }
        if let Some(found) = memories.holding.recall(r, &[]) {
            return Vec::from_slice(alloc, found);
        }
        let out = self.hold_row(alloc, r, terms::row_at(self.rows, r), memories)?;
        memories.holding.note(alloc, r, &[], &out)?;
        Ok(out)
    }

    #[cycle(evaluation)]
    fn hold_row(
        &self,
        alloc: Global,
        top: usize,
        row: Row,
        memories: &mut Memories,
    ) -> Result<Vec<bool>, AllocError>
        requires remembered { Remembered (rows_in self.now) (document_in self.now) memories.old }
        ensures found { IfOk result (λ v. Holding (document_in self.now)
            (as_qualifier (term_by (terms_before self.now top) (row_of row))) v.items) }
        ensures remembered { Remembered (rows_in self.now) (document_in self.now) memories.new }
    {
        let n = self.columns.node_count();
        let a = usize::from(row.a);
        let b = usize::from(row.b);
        match row.read_kind() {
            Some(RowKind::Not) => {
                let out = self.hold(alloc, top, a, memories)?;
                Ok(complemented(out))
            }
            Some(RowKind::And) => {
                let out = self.hold(alloc, top, a, memories)?;
                let other = self.hold(alloc, top, b, memories)?;
                Ok(intersected(out, &other))
            }
            Some(RowKind::Or) => {
                let out = self.hold(alloc, top, a, memories)?;
                let other = self.hold(alloc, top, b, memories)?;
                Ok(united(out, &other))
            }
            Some(RowKind::Inclusion) => {
                if is_void(self.rows, b) {
                    let all = all_marks(alloc, n)?;
                    let out = self.select_back(alloc, top, a, &all, memories)?;
                    Ok(complemented(out))
                } else {
                    self.include(alloc, top, a, b, memories)
                }
            }
            Some(RowKind::True) => all_marks(alloc, n),
            _ => no_marks(alloc, n),
        }
    }

    // The nodes from which what the path in row a selects is selected by the path in row b, in general: from one node
    // after the other, in the time of both paths for each. A set of what a path selects from several nodes doesn't say
    // from which, and a set for each node at once would take as many bits as pairs of nodes.
    #[cycle(evaluation)]
    fn include(
        &self,
        alloc: Global,
        top: usize,
        a: usize,
        b: usize,
        memories: &mut Memories,
    ) -> Result<Vec<bool>, AllocError>
        requires remembered { Remembered (rows_in self.now) (document_in self.now) memories.old }
        ensures found { IfOk result (λ v. Holding (document_in self.now)
            (In (path_in (terms_before self.now top) a) (path_in (terms_before self.now top) b)) v.items) }
        ensures remembered { Remembered (rows_in self.now) (document_in self.now) memories.new }
    {
        let n = self.columns.node_count();
        let mut out = no_marks(alloc, n)?;
        for x in 0..n {
            let from = only(alloc, n, x)?;
            let left = self.select(alloc, top, a, &from, memories)?;
            let right = self.select(alloc, top, b, &from, memories)?;
            out[x] = is_included(&left, &right);
        }
        Ok(out)
    }
}

/// Marks each node that the path in row `row` selects from some marked node of the context; a row past the last one is
/// the void path.
pub fn select_all(
    alloc: Global,
    rows: &[u16],
    row: usize,
    document: &Document,
    context: &[bool],
) -> Result<Vec<bool>, AllocError>
    requires { length context.now ≡ length document.now.kinds.items }
    ensures { IfOk result (λ v. Image (selects (doc document.now) (path_at (table_of rows.now) row))
        context.now v.items) }
{
    let columns = Columns {
        kinds: &document.kinds,
        parents: &document.parents,
        names: &document.names,
        ends: &document.ends,
    };
    let evaluation = Evaluation {
        rows,
        columns: &columns,
    };
    let count = terms::row_count(rows);
    let mut memories = Memories::new(alloc, rows, count.min(row.saturating_add(1)))?;
    evaluation.select(alloc, count, row, context, &mut memories)
}
