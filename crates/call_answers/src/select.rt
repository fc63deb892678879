// Select calls on lent rows: the answer, and the marks.
ghost use Rattle.terms.specs.Row.{table_of};
ghost use Rattle.calls.specs.Promises.{SelectMade};

use common::Refusal;
use xpath::Checked;

/// A select call on lent rows, four numbers a row, as `Session::select` makes it on the rows that it holds.
pub fn select_on(
    rows: &[u16],
    row: u16,
    document: &[u16],
    context: u16,
    limit: u32,
    marks: &mut [u8],
) -> Result<u32, Refusal>
    ensures { SelectMade (table_of rows.now) row document.now context limit
        marks.old result marks.new }
{
    let ends = xpath::check_document(document).map_err(Refusal::BadDocument)?;
    let x = usize::from(context);
    if xpath::node_count(document) <= x {
        return Err(Refusal::BadArgument(1));
    }
    if !terms::is_held_path(rows, row) {
        return Err(Refusal::BadArgument(2));
    }
    let document = Checked {
        numbers: document,
        ends: &ends,
    };
    let visits = selection::evaluate(rows, usize::from(row), document, x, limit, marks)?;
    Ok(visits)
}
