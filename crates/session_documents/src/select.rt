// The nodes that a row of a session, and a selector as text, selects on a document of any size.
ghost use Rattle.session.specs.View.{view};
ghost use Rattle.documents.specs.Documents.{doc};
ghost use Rattle.document_calls.specs.Selections.{NodesSelected, NodesSelectedFrom};
ghost use Rattle.session_documents.specs.TextNodes.{TextNodesSelected};

use document_calls::SelectionError;
use documents::Document;
use session::Session;
use std::alloc::Global;

/// Marks each node that the path in row `row` of the session selects from the context node.
#[tactic(auto, unfolding(session::specs::View::view))]
pub fn select_nodes(
    session: &Session,
    row: u16,
    document: &Document,
    context: u32,
    alloc: Global,
) -> Result<Vec<bool>, SelectionError>
    ensures { NodesSelected (view session.now).rows row (doc document.now) context result }
{
    document_calls::select_nodes(session.held_rows(), row, document, context, alloc)
}

/// Marks each node that the path selects from some marked context node.
#[tactic(auto, unfolding(session::specs::View::view))]
pub fn select_from(
    session: &Session,
    row: u16,
    document: &Document,
    context: &[bool],
    alloc: Global,
) -> Result<Vec<bool>, SelectionError>
    ensures { NodesSelectedFrom (view session.now).rows row (doc document.now) context.now result }
{
    document_calls::select_from(session.held_rows(), row, document, context, alloc)
}

/// Marks each node that the selector selects from the context node; its names have their numbers by the lent list.
pub fn select_text(
    names: &[u8],
    selector: &[u8],
    document: &Document,
    context: u32,
    alloc: Global,
) -> Result<Vec<bool>, SelectionError>
    ensures { TextNodesSelected names.now selector.now (doc document.now) context result }
{
    let mut session = Session::new();
    let row = session.text(names, selector)?;
    select_nodes(&session, row, document, context, alloc)
}
