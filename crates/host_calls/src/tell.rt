// How an answer is told to a host.
ghost use Rattle.std.specs.Prelude.{◌≡◌};
ghost use Rattle.calls.specs.Book.{answer};

use calls::Answer;

// The number of the answer, whose value goes into what the host lends.
pub(crate) fn tell<A: Answer + Copy>(told: A, value: &mut usize) -> u16
    ensures { answer result value.new ≡ A.answer told }
{
    *value = told.value();
    told.number()
}
