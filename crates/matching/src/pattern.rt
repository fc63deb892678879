// The forms of the rules as patterns of rows.
ghost use Rattle.std.specs.Prelude.{◌≡◌, ◌<◌};
ghost use Rattle.matching.specs.private.Pattern.{letter_count};
ghost use Rattle.matching.specs.private.PatternTypes.{letter_number};

use common::row_kind::RowKind;

/// The letters: P to S stand for paths, F to H for qualifiers, A and B for axes; N and M are tests, each with its name.
#[derive(Clone, Copy, PartialEq, Eq, Debug)]
pub enum Letter {
    P,
    Q,
    R,
    S,
    F,
    G,
    H,
    A,
    B,
    N,
    NameOfN,
    M,
    NameOfM,
}

/// How many letters there are.
pub const LETTER_COUNT: usize = 13;

impl Letter {
    /// Its place among the letters.
    pub fn place(self) -> usize
        ensures is { result ≡ letter_number self }
        ensures small { result < letter_count }
    {
        self as usize
    }
}

/// The side conditions.
#[derive(Clone, Copy, PartialEq, Eq, Debug)]
pub enum Condition {
    ABelowB,
    NBelowM,
    BFrom3To10,
    NNameOrStar,
    NNotNode,
    ANotAttribute,
}

/// Of a number in a row: this number; the one that a letter stands for; the number of such a row.
#[cycle(pattern)]
#[derive(Clone, Copy)]
pub enum Pattern {
    Number(u16),
    Letter(Letter),
    Row(&'static RowPattern),
}

/// A held row of a kind, with patterns of its fields.
#[cycle(pattern)]
#[derive(Clone, Copy)]
pub struct RowPattern(pub RowKind, pub Pattern, pub Pattern, pub Pattern);

/// The left and the right row of a step.
#[derive(Clone, Copy)]
pub struct Claim(pub Pattern, pub Pattern);

#[derive(Clone, Copy)]
pub struct Form {
    pub conclusion: Claim,
    pub premises: &'static [Claim],
    pub conditions: &'static [Condition],
}
