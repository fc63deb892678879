// What a call answers: 0 and a value where it is accepted, else the number of a refusal and its value.
ghost use Rattle.std.specs.Prelude.{◌≡◌, ℕ};
ghost use Rattle.calls.specs.Book.{Answer as BookAnswer};
ghost use Rattle.calls.specs.represent.Answers.{answer_with, refusal_answer, line_answer, order_number};

use common::Refusal;
use std::cmp::Ordering;

/// What an accepted call gives, as the value of its answer.
pub trait Value {
    ghost value: { Self → ℕ };

    fn value(self) -> usize
        ensures { result ≡ value self };
}

impl Value for u16 {
    ghost value = { λ n. n };

    fn value(self) -> usize {
        usize::from(self)
    }
}

impl Value for u32 {
    ghost value = { λ n. n };

    fn value(self) -> usize {
        self as usize
    }
}

impl Value for usize {
    ghost value = { λ n. n };

    fn value(self) -> usize {
        self
    }
}

impl Value for () {
    ghost value = { λ _. 0 };

    fn value(self) -> usize {
        0
    }
}

// 0, 1 and 2 for less, equal and greater.
impl Value for Ordering {
    ghost value = { order_number };

    fn value(self) -> usize {
        match self {
            Ordering::Less => 0,
            Ordering::Equal => 1,
            Ordering::Greater => 2,
        }
    }
}

/// What a call answers, or a refusal of its own.
pub trait Answer {
    ghost answer: { Self → BookAnswer };

    fn number(self) -> u16
        ensures { result ≡ (answer self).number };

    fn value(self) -> usize
        ensures { result ≡ (answer self).value };
}

impl Answer for Refusal {
    ghost answer = { refusal_answer };

    fn number(self) -> u16 {
        Refusal::number(self)
    }

    fn value(self) -> usize {
        Refusal::value(self)
    }
}

/// The refusal of a line of a text, and which line it is.
#[derive(Clone, Copy, Debug, PartialEq, Eq)]
pub struct LineRefusal {
    pub refusal: Refusal,
    pub line: usize,
}

// Its value is the line.
impl Answer for LineRefusal {
    ghost answer = { line_answer };

    fn number(self) -> u16 {
        self.refusal.number()
    }

    fn value(self) -> usize {
        self.line
    }
}

impl<T: Value + Copy, E: Answer + Copy> Answer for Result<T, E> {
    ghost answer = { answer_with T.value E.answer };

    fn number(self) -> u16 {
        match self {
            Ok(_) => 0,
            Err(refused) => refused.number(),
        }
    }

    fn value(self) -> usize {
        match self {
            Ok(given) => given.value(),
            Err(refused) => refused.value(),
        }
    }
}
