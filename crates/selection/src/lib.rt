// The evaluation of a path from a context node, with a limit on its visits.
#![tactic(auto)]

mod context;
mod evaluation;

ghost use Rattle.std.specs.Prelude.{◌≡◌, ◌<◌, length};
ghost use Rattle.xpath.specs.private.Checked.{doc};
ghost use Rattle.terms.specs.Row.{table_of};
ghost use Rattle.selection.specs.Evaluation.{outcome, evaluated};
ghost use Rattle.selection.specs.private.EvaluatedTypes.{answer_of, refusal_of};

use common::Refusal;
use context::{Context, Lent};
use xpath::{Checked, MAX_NODES};

/// The marks have no room for the document; or more visits are needed than the limit.
#[derive(Clone, Copy, Debug, PartialEq, Eq)]
pub enum EvaluationError {
    NoRoom,
    LimitPassed,
}

impl From<EvaluationError> for Refusal {
    ghost from_gives = { λ error refusal. refusal ≡ refusal_of error };

    fn from(error: EvaluationError) -> Refusal {
        match error {
            EvaluationError::NoRoom => Refusal::ShortMarks,
            EvaluationError::LimitPassed => Refusal::LimitPassed,
        }
    }
}

/// Writes 1 or 0 for each node of the document into `marks`, as the path in row `row` selects it from x, and answers
/// the visits made. Where it answers an error, `marks` is as it was. It asks for a node of the document, since the
/// caller answers for all other input; no user calls it.
pub fn evaluate(
    rows: &[u16],
    row: usize,
    document: Checked,
    x: usize,
    limit: u32,
    marks: &mut [u8],
) -> Result<u32, EvaluationError>
    requires { x < length (doc document) }
    ensures { outcome (answer_of result) marks.new ≡ evaluated (table_of rows.now) row
        (doc document.entry) x limit marks.old }
{
    let n = xpath::node_count(document.numbers);
    if marks.len() < n {
        return Err(EvaluationError::NoRoom);
    }
    let lent = Lent { rows, document };
    let all = Context {
        lent: &lent,
        top: terms::row_count(rows),
        x,
    };
    let mut out = [0; MAX_NODES];
    let visits = all
        .eval_path(row, limit, &mut out)
        .ok_or(EvaluationError::LimitPassed)?;
    marks[..n].copy_from_slice(&out[..n]);
    Ok(visits)
}
