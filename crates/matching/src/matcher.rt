// A form of a rule against the rows of a step and of its premises.
ghost use Rattle.std.specs.Prelude.{◌≡◌, [], map, length, take, drop, get_or};
ghost use Rattle.terms.specs.Row.{table_of};
ghost use Rattle.common.specs.represent.Numbers.{row_number};
ghost use Rattle.rules.specs.Instance.{meets};
ghost use Rattle.rules.specs.Yields.{forms_of};
ghost use Rattle.matching.specs.private.Pattern.{form_pattern};
ghost use Rattle.matching.specs.private.PatternTypes.{letter_number, condition_of, pattern_of, claim_of, form_of};
ghost use Rattle.matching.specs.private.PatternTypes.{forms_in, rule_table};
ghost use Rattle.matching.specs.private.RowYields.{bind, suits, match, match_claim, match_claims};
ghost use Rattle.matching.specs.private.RowYields.{empty_match, numbers_in, yields_by};
ghost use Rattle.matching.specs.private.MatchTypes.{values_in, matched, Matches, KindRowIs};
ghost use Rattle.matching.specs.represent.Sides.{sides_in};

use crate::order::{axis_below, test_below};
use crate::pattern::{Claim, Condition, Form, LETTER_COUNT, Letter, Pattern, RowPattern};
use crate::tables::{RULES_TO_24, RULES_TO_41, RULES_TO_58};
use common::row_kind::RowKind;
use common::{axis, node_test};
use terms::{Row, get_row, is_held_path, is_held_qualifier};

/// The rows that a step is about.
#[derive(Clone, Copy, PartialEq, Eq, Debug)]
pub struct Sides {
    pub left: u16,
    pub right: u16,
}

// What each letter stands for, where it stands for something yet.
#[derive(Clone, Copy)]
struct Letters {
    values: [Option<u16>; LETTER_COUNT],
}

// The first part of the rule table; crate::tables says why it has three.
fn rules_to_24() -> &'static [&'static [Form]]
    ensures { map forms_in result.now ≡ take 25 rule_table }
{
    &RULES_TO_24
}

// The second part.
fn rules_to_41() -> &'static [&'static [Form]]
    ensures { map forms_in result.now ≡ take 17 (drop 25 rule_table) }
{
    &RULES_TO_41
}

// The third part.
fn rules_to_58() -> &'static [&'static [Form]]
    ensures { map forms_in result.now ≡ drop 42 rule_table }
{
    &RULES_TO_58
}

// Entry i of a part; no forms past the last one, as the definition has it of a rule that isn't there.
fn entry_at(part: &'static [&'static [Form]], i: usize) -> &'static [Form]
    ensures { forms_in result ≡ get_or (map forms_in part.now) i [] }
{
    part.get(i).copied().unwrap_or(&[])
}

/// The forms of a rule, none where the table has no such rule.
pub fn forms_of(rule: u16) -> &'static [Form]
    ensures { forms_in result ≡ map form_pattern (forms_of rule) }
{
    let i = usize::from(rule);
    if i <= 24 {
        entry_at(rules_to_24(), i)
    } else if i <= 41 {
        entry_at(rules_to_41(), i - 25)
    } else {
        entry_at(rules_to_58(), i - 42)
    }
}

// Whether a letter can stand for v: p, q, r, s for held paths, f, g, h for held qualifiers.
#[tactic(auto, unfolding(crate::specs::private::RowYields::suits))]
fn suits_letter(rows: &[u16], letter: Letter, v: u16) -> bool
    ensures { result ≡ suits (table_of rows.now) (letter_number letter) v }
{
    match letter {
        Letter::P | Letter::Q | Letter::R | Letter::S => is_held_path(rows, v),
        Letter::F | Letter::G | Letter::H => is_held_qualifier(rows, v),
        _ => true,
    }
}

// The held row of number v, where it is of this kind.
#[tactic(auto, unfolding(crate::specs::private::RowYields::is_row))]
fn row_of_kind(rows: &[u16], kind: RowKind, v: u16) -> Option<Row>
    ensures { KindRowIs result (table_of rows.now) (row_number kind) v }
{
    get_row(rows, usize::from(v)).filter(|row| row.kind == u16::from(kind))
}

impl Letters {
    #[tactic(auto, unfolding(crate::specs::private::RowYields::empty_match))]
    fn new() -> Letters
        ensures { matched result ≡ empty_match }
    {
        Letters {
            values: [None; LETTER_COUNT],
        }
    }

    // What a letter stands for; 0 where that is nothing, as the definition has it: a form's conditions are about
    // letters of its conclusion.
    fn value(&self, letter: Letter) -> u16
        ensures { result ≡ get_or (values_in self.now) (letter_number letter) 0 }
    {
        self.values[letter.place()].unwrap_or(0)
    }

    // Whether the letter stood for nothing, or for v; from now on it stands for v.
    fn bind(&mut self, letter: Letter, v: u16) -> bool
        ensures { Matches result self.new (bind (letter_number letter) v (matched self.old)) }
    {
        let k = letter.place();
        let old = self.values[k].unwrap_or(v);
        self.values[k] = Some(v);
        old == v
    }

    fn meet(&self, condition: Condition) -> bool
        ensures { result ≡ meets (numbers_in (values_in self.now)) (condition_of condition) }
    {
        let a = self.value(Letter::A);
        let b = self.value(Letter::B);
        let test = self.value(Letter::N);
        match condition {
            Condition::ABelowB => axis_below(a, b),
            Condition::NBelowM => test_below(
                test,
                self.value(Letter::NameOfN),
                self.value(Letter::M),
                self.value(Letter::NameOfM),
            ),
            Condition::BFrom3To10 => axis::DESCENDANT <= b && b <= axis::PRECEDING,
            Condition::NNameOrStar => test == node_test::NAME || test == node_test::STAR,
            Condition::NNotNode => test != node_test::NODE,
            Condition::ANotAttribute => a != axis::ATTRIBUTE,
        }
    }

    // The number v against a pattern.
    fn fit(&mut self, rows: &[u16], pattern: Pattern, v: u16) -> bool
        ensures { Matches result self.new
            (match (table_of rows.now) (pattern_of pattern) v (matched self.old)) }
    {
        match pattern {
            Pattern::Number(n) => v == n,
            Pattern::Letter(letter) => suits_letter(rows, letter, v) && self.bind(letter, v),
            Pattern::Row(row) => {
                let RowPattern(kind, a, b, c) = *row;
                let Some(held) = row_of_kind(rows, kind, v) else {
                    return false;
                };
                self.fit(rows, a, held.a) && self.fit(rows, b, held.b) && self.fit(rows, c, held.c)
            }
        }
    }

    // The rows of a step against those of a claim.
    fn fit_claim(&mut self, rows: &[u16], claim: &Claim, s: Sides) -> bool
        ensures { Matches result self.new
            (match_claim (table_of rows.now) (claim_of claim.now) (sides_in s) (matched self.old)) }
    {
        self.fit(rows, claim.0, s.left) && self.fit(rows, claim.1, s.right)
    }

    // The rows of the premises, of as many as the form has, against the form's claims.
    fn fit_premises(&mut self, rows: &[u16], claims: &[Claim], premises: [Sides; 2]) -> bool
        ensures { Matches result self.new
            (match_claims (table_of rows.now) (map claim_of claims.now)
            (take (length (map claim_of claims.now)) (map sides_in premises)) (matched self.old)) }
    {
        let [first, second] = premises;
        match claims {
            [] => true,
            [one] => self.fit_claim(rows, one, first),
            [one, other] => {
                self.fit_claim(rows, one, first) && self.fit_claim(rows, other, second)
            }
            _ => false,
        }
    }
}

impl Form {
    /// Whether it yields the step, from as many of the premises as it has.
    pub fn yields(&self, rows: &[u16], step: Sides, premises: [Sides; 2]) -> bool
        ensures { result ≡ yields_by (table_of rows.now) (sides_in step) (map sides_in premises) (form_of self.now) }
    {
        let mut letters = Letters::new();
        letters.fit_claim(rows, &self.conclusion, step)
            && letters.fit_premises(rows, self.premises, premises)
            && self
                .conditions
                .iter()
                .all(|condition| letters.meet(*condition))
    }
}
