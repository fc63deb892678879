// The nodes that a selector as text selects on a lent document.
ghost use Rattle.calls.specs.Book.{answer};
ghost use Rattle.calls.specs.represent.Answers.{answer_of};
ghost use Rattle.host_calls.specs.TextSelect.{TextSelectMade};

use crate::tell::tell;
use common::Refusal;
use session::Session;

// Marks the nodes that the selector selects, as `Session::select` does.
fn select_text(
    names: &[u8],
    selector: &[u8],
    document: &[u16],
    context: u16,
    limit: u32,
    marks: &mut [u8],
) -> Result<u32, Refusal>
    ensures { TextSelectMade names.now selector.now document.now context limit
        marks.old (answer_of result) marks.new }
{
    let mut session = Session::new();
    let row = session.text(names, selector)?;
    session.select(row, document, context, limit, marks)
}

/// The number of the answer and its value.
pub fn spinebriar_select(
    names: &[u8],
    selector: &[u8],
    document: &[u16],
    context: u16,
    limit: u32,
    marks: &mut [u8],
    value: &mut usize,
) -> u16
    ensures { TextSelectMade names.now selector.now document.now context limit
        marks.old (answer result value.new) marks.new }
{
    let answer = select_text(names, selector, document, context, limit, marks);
    tell(answer, value)
}
