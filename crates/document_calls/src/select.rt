// The nodes that a path selects, marked.
ghost use Rattle.terms.specs.Row.{table_of};
ghost use Rattle.documents.specs.Documents.{doc};
ghost use Rattle.document_calls.specs.Selections.{NodesSelected, NodesSelectedFrom};

use crate::selection_error::SelectionError;
use common::Refusal;
use documents::Document;
use std::alloc::Global;

/// Marks each node that the path in row `row` selects from the context node, one pass or two over the document for each
/// row that the path needs, but for an inclusion in a path that may select something: that is tested from one node
/// after the other.
pub fn select_nodes(
    rows: &[u16],
    row: u16,
    document: &Document,
    context: u32,
    alloc: Global,
) -> Result<Vec<bool>, SelectionError>
    ensures { NodesSelected (table_of rows.now) row (doc document.now) context result }
{
    let n = document.node_count();
    let x = context as usize;
    if n <= x {
        return Err(SelectionError::Refused(Refusal::BadArgument(1)));
    }
    if !terms::is_held_path(rows, row) {
        return Err(SelectionError::Refused(Refusal::BadArgument(2)));
    }
    let from = set_selection::only(alloc, n, x)?;
    let marks = set_selection::select_all(alloc, rows, usize::from(row), document, &from)?;
    Ok(marks)
}

/// Marks each node that the path selects from some marked context node, in the time of one.
pub fn select_from(
    rows: &[u16],
    row: u16,
    document: &Document,
    context: &[bool],
    alloc: Global,
) -> Result<Vec<bool>, SelectionError>
    ensures { NodesSelectedFrom (table_of rows.now) row (doc document.now) context.now result }
{
    if context.len() != document.node_count() {
        return Err(SelectionError::Refused(Refusal::BadArgument(1)));
    }
    if !terms::is_held_path(rows, row) {
        return Err(SelectionError::Refused(Refusal::BadArgument(2)));
    }
    let marks = set_selection::select_all(alloc, rows, usize::from(row), document, context)?;
    Ok(marks)
}
