// The numbers that a line lists.
ghost use Rattle.std.specs.Prelude.{◌≡◌, ◌≤◌, ◌<◌, [], ◌∷◌, ◌++◌, length};
ghost use Rattle.script.specs.Words.{max_numbers};

use crate::words::MAX_NUMBERS;

/// The first `count` of an array: a line is read whatever memory is left, without a heap.
#[derive(Clone, Copy)]
pub struct NumberList {
    numbers: [u16; MAX_NUMBERS],
    count: usize,
    ghost few: { count ≤ max_numbers },
}

impl NumberList {
    ghost use Rattle.script.specs.private.CommandRead.{items};

    pub fn new() -> NumberList
        ensures { items result ≡ [] }
    {
        NumberList {
            numbers: [0; MAX_NUMBERS],
            count: 0,
        }
    }

    pub fn as_slice(&self) -> &[u16]
        ensures { result.now ≡ items self.now }
    {
        &self.numbers[..self.count]
    }

    pub(crate) fn push(&mut self, number: u16)
        requires { length (items self.old) < max_numbers }
        ensures { items self.new ≡ items self.old ++ number ∷ [] }
    {
        self.numbers[self.count] = number;
        self.count += 1;
    }
}
