// What every crate uses: kinds, axes, tests and refusals, each with its number, and limits.
#![tactic(auto)]

// Of axes, kinds and tests. Each enum's two conversions are written out: `rt ci` refuses an `impl` that a macro of this
// repository writes.
pub mod axis;
pub mod node_kind;
pub mod node_test;
pub mod refusal;
pub mod row_kind;

ghost use Rattle.std.specs.Prelude.{◌≡◌, ◌+◌, ◌*◌, ◌≤◌, length};
ghost use Rattle.std.proofs.lemmas.List.Edits.{sets};

pub use refusal::Refusal;

/// The most bytes of a text that a program takes.
pub const MAX_BYTES: usize = 65536;

/// The largest number that a line may have and the largest name: the largest of 16 bits.
pub const MAX_NUMBER: usize = u16::MAX as usize;

/// Record n, counted from 0, of lent numbers of which each W are a record, becomes `values`. Room is asked: each caller
/// has counted.
#[tactic(auto, using(crate::proofs::Records::copied))]
pub fn put_record<const W: usize>(numbers: &mut [u16], n: usize, values: [u16; W])
    requires { W * n + W ≤ length numbers.old }
    ensures { numbers.new ≡ sets numbers.old (W * n) values.entry }
{
    let at = W * n;
    numbers[at..at + W].copy_from_slice(&values);
}
