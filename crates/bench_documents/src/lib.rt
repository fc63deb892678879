// Selections on a document of any size, for a benchmark in C, on what the caller lends, each thing a parameter, as C
// has them.
#![tactic(auto)]

ghost use Rattle.std.specs.Prelude.{◌≡◌, IfOk};
ghost use Rattle.xpath.specs.Meaning.{selects};
ghost use Rattle.terms.specs.Row.{table_of};
ghost use Rattle.terms.specs.Terms.{path_at};
ghost use Rattle.documents.specs.Columns.{Even, rows_of};
ghost use Rattle.documents.specs.Documents.{doc};
ghost use Rattle.document_calls.specs.Selections.{Marks, NodesSelected};

use document_calls::{SelectionError, select_nodes};
use documents::{Document, DocumentError, Rows};
use std::alloc::Global;

// The document of the columns, if it is one.
fn document_of(
    alloc: Global,
    kinds: &[u8],
    parents: &[u32],
    names: &[u16],
) -> Result<Document, DocumentError>
    requires { Even kinds.now parents.now names.now }
    ensures { IfOk result (λ d. doc d ≡ rows_of kinds.now parents.now names.now) }
{
    let kinds = Vec::from_slice(alloc, kinds)?;
    let parents = Vec::from_slice(alloc, parents)?;
    let names = Vec::from_slice(alloc, names)?;
    let rows = Rows {
        kinds,
        parents,
        names,
    };
    Document::check(rows, alloc)
}

// The same selection so many times, once at least.
fn select_often(
    alloc: Global,
    rows: &[u16],
    row: u16,
    document: &Document,
    context: u32,
    count: u32,
) -> Result<Vec<bool>, SelectionError>
    ensures { NodesSelected (table_of rows.now) row (doc document.now) context result }
{
    for _ in 1..count {
        let _ = select_nodes(rows, row, document, context, alloc);
    }
    select_nodes(rows, row, document, context, alloc)
}

/// 0, with the marks as the path has them, of a document that is checked once and selected on `count` times; 1 where
/// something is refused, the marks are not as many as the nodes, or memory runs out.
#[unsafe(no_mangle)]
pub extern "C" fn bench_documents(
    alloc: Global,
    kinds: &[u8],
    parents: &[u32],
    names: &[u16],
    rows: &[u16],
    row: u16,
    context: u32,
    count: u32,
    marks: &mut [bool],
) -> u32
    ensures { result ≡ 0 → Marks (rows_of kinds.now parents.now names.now)
        (selects (rows_of kinds.now parents.now names.now) (path_at (table_of rows.now) row) context) marks.new }
{
    if parents.len() != kinds.len() || names.len() != kinds.len() {
        return 1;
    }
    let Ok(document) = document_of(alloc, kinds, parents, names) else {
        return 1;
    };
    let Ok(found) = select_often(alloc, rows, row, &document, context, count) else {
        return 1;
    };
    if found.len() != marks.len() {
        return 1;
    }
    marks.copy_from_slice(&found);
    0
}
