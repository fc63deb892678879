// A call's answer as the programs print it.
ghost use Rattle.std.specs.Prelude.{◌≡◌};

use crate::Answer;
use std::fmt;

/// The line of an answer, without its newline: the number, 0 or a refusal's, and the value.
#[derive(Clone, Copy, Debug, PartialEq, Eq)]
pub struct AnswerLine {
    pub number: u16,
    pub value: usize,
}

impl<A: Answer + Copy> From<A> for AnswerLine {
    ghost from_gives = { λ answer line. (line.number ≡ (A.answer answer).number)
        × (line.value ≡ (A.answer answer).value) };

    fn from(answer: A) -> AnswerLine {
        AnswerLine {
            number: answer.number(),
            value: answer.value(),
        }
    }
}

impl fmt::Display for AnswerLine {
    fn fmt<W: fmt::Write>(&self, f: &mut fmt::Formatter<W>) -> fmt::Result {
        write!(f, "{} {}", self.number, self.value)
    }
}
