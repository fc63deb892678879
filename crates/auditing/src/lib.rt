// What the program audit prints of a bundle.
#![tactic(auto)]

ghost use Rattle.std.specs.Prelude.{◌≡◌, cond, is_ok};
ghost use Rattle.session.specs.ReadCall.{read_answer_of};
ghost use Rattle.auditing.specs.Audit.{report, unread};

use calls::Answer;
use common::Refusal;
use session::{LineRefusal, Session};
use std::fmt;

/// What the program audit prints, as numbers: the answer's, the refused line or 0, the steps held, the rows of the last
/// step or zeros.
#[derive(Clone, Copy, Debug, PartialEq, Eq)]
pub struct Report {
    pub answer: u16,
    pub line: usize,
    pub steps: u16,
    pub left: u16,
    pub right: u16,
}

// As it is printed.
impl fmt::Display for Report {
    fn fmt<W: fmt::Write>(&self, f: &mut fmt::Formatter<W>) -> fmt::Result {
        write!(
            f,
            "{} {} {} {} {}",
            self.answer, self.line, self.steps, self.left, self.right
        )
    }
}

// The refused line; 0 where none is.
fn refused_line(answer: Result<u16, LineRefusal>) -> usize
    ensures { result ≡ cond (is_ok answer) 0 (read_answer_of answer).value }
{
    answer.err().map_or(0, |refused| refused.line)
}

/// What the program audit prints where no bundle was read: too many bytes, or a read that failed.
pub fn unread() -> Report
    ensures { result ≡ unread }
{
    Report {
        answer: Refusal::WrongForm.number(),
        line: 0,
        steps: 0,
        left: 0,
        right: 0,
    }
}

/// What the program audit prints of a bundle.
pub fn audit(bytes: &[u8]) -> Report
    ensures { result ≡ report bytes.now }
{
    if common::MAX_BYTES < bytes.len() {
        return unread();
    }
    let mut session = Session::new();
    let answer = session.read(bytes);
    let last = session.last_step();
    Report {
        answer: answer.number(),
        line: refused_line(answer),
        steps: session.steps_held(),
        left: last.left,
        right: last.right,
    }
}
