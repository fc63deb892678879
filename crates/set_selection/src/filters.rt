// Sets of nodes by their kinds and names, and sets of two sets: one pass each.
ghost use Rattle.std.specs.Prelude.{◌≡◌, ℕ, Bool, ◌&&◌, ◌||◌, not, eqb, length, get_or};
ghost use Rattle.common.specs.represent.Numbers.{kind_number};
ghost use Rattle.set_selection.specs.Sets.{Pointwise, marked};
ghost use Rattle.xpath.specs.private.Tests.{fits};

use common::node_kind::{self, NodeKind};
use xpath::StepTest;

/// Leaves the nodes of the other kinds out.
pub fn keep_kind(kinds: &[u8], kind: NodeKind, out: &mut [bool])
    requires { length out.old ≡ length kinds.now }
    ensures { Pointwise out.old out.new (λ y m. m && eqb (get_or kinds.now y 0) (kind_number kind)) }
{
    let number = u16::from(kind);
    for y in 0..out.len() {
        out[y] &= u16::from(kinds[y]) == number;
    }
}

/// Leaves the attributes out.
pub fn leave_attributes(kinds: &[u8], out: &mut [bool])
    requires { length out.old ≡ length kinds.now }
    ensures { Pointwise out.old out.new (λ y m. m && not (eqb (get_or kinds.now y 0) 5)) }
{
    for y in 0..out.len() {
        out[y] &= u16::from(kinds[y]) != node_kind::ATTRIBUTE;
    }
}

/// Leaves the nodes of other names out.
pub fn keep_name(names: &[u16], name: usize, out: &mut [bool])
    requires { length out.old ≡ length names.now }
    ensures { Pointwise out.old out.new (λ y m. m && eqb (get_or names.now y 0) name) }
{
    for y in 0..out.len() {
        out[y] &= usize::from(names[y]) == name;
    }
}

/// Leaves the nodes out that are not the test's.
pub fn keep_test(kinds: &[u8], names: &[u16], test: StepTest, out: &mut [bool])
    requires kinds { length out.old ≡ length kinds.now }
    requires names { length out.old ≡ length names.now }
    ensures { Pointwise out.old out.new (λ y m. m && fits test (get_or kinds.now y 0) (get_or names.now y 0)) }
{
    match test {
        StepTest::Everything(_) => {}
        StepTest::Kind(set) => keep_kind(kinds, set.0, out),
        StepTest::Name(set) => {
            keep_kind(kinds, set.0, out);
            keep_name(names, set.1, out);
        }
    }
}

pub fn unite(other: &[bool], out: &mut [bool])
    requires { length out.old ≡ length other.now }
    ensures { Pointwise out.old out.new (λ y m. m || marked other.now y) }
{
    for y in 0..out.len() {
        out[y] |= other[y];
    }
}

pub fn intersect(other: &[bool], out: &mut [bool])
    requires { length out.old ≡ length other.now }
    ensures { Pointwise out.old out.new (λ y m. m && marked other.now y) }
{
    for y in 0..out.len() {
        out[y] &= other[y];
    }
}

pub fn complement(out: &mut [bool])
    ensures { Pointwise out.old out.new (λ y m. not m) }
{
    for y in 0..out.len() {
        out[y] = !out[y];
    }
}
