// Numbers and lines of numbers in a text: base ten, no leading zeros, at most 65535 in a line of numbers, one space
// between two numbers, a newline after every line. Every public function takes every input. A text is read from a
// position on, and no line is searched for its end first. Text and position are two parameters, and a position is what
// a reader gives back: callers hold it against the text's length, and go on in the text at it; the slice that is left
// would have to be measured for that.
#![tactic(auto)]

pub mod names;

ghost use Rattle.std.specs.Prelude.{◌≡◌, true, [], ◌∷◌, ◌++◌, ◌+◌, ◌-◌, ◌==◌, drop, position, MatchOption};
ghost use Rattle.std.proofs.Math.Option.{none};
ghost use Rattle.lines.specs.Line.{newline, lines};
ghost use Rattle.lines.specs.Number.{digit0, is_digit};
ghost use Rattle.lines.specs.private.NumbersRead.{up_to, first_digit, one_more, written_number, number_cut, NumberMet};
ghost use Rattle.lines.specs.private.NumbersRead.{first_numbers, LineMet, starts_with, first_length};

pub const NEWLINE: u8 = b'\n';

pub const SPACE: u8 = b' ';

pub const DIGIT_0: u8 = b'0';

/// That of common, in the type of a bound.
pub const MAX_NUMBER: u32 = common::MAX_NUMBER as u32;

/// A number, and the position after the byte that ends it.
#[derive(Clone, Copy)]
pub struct Number {
    pub value: u32,
    pub next: usize,
}

/// The numbers of a line, and the position of the next line.
#[derive(Clone, Copy)]
pub struct NumbersLine<const N: usize> {
    pub numbers: [u16; N],
    pub next: usize,
}

#[tactic(auto, unfolding(crate::specs::Number::is_digit))]
fn is_digit(b: u8) -> bool
    ensures { result ≡ is_digit b }
{
    b.is_ascii_digit()
}

// The digit that b is.
#[tactic(auto, using(crate::proofs::Scan::digit_range))]
fn digit(b: u8) -> u64
    requires { is_digit b ≡ true }
    ensures { result ≡ b - digit0 }
{
    u64::from(b - DIGIT_0)
}

// With `try_from` and `filter` 3,325 lines of five numbers take 172 us to read, and take 149 so.
#[tactic(auto, unfolding(crate::specs::private::NumbersRead::up_to))]
fn up_to(most: u32, value: u64) -> Option<u32>
    ensures { written_number result ≡ up_to most value }
{
    if u64::from(most) < value {
        return None;
    }
    Some(value as u32)
}

// The number that b writes where a number starts.
#[tactic(auto, unfolding(crate::specs::private::NumbersRead::first_digit, crate::specs::private::NumbersRead::up_to))]
fn first_digit(most: u32, end: u8, b: u8) -> Option<u32>
    ensures { written_number result ≡ first_digit most end b }
{
    if b == end || !is_digit(b) {
        return None;
    }
    up_to(most, digit(b))
}

// The digits that write `value`, and b behind them. No digit may stand behind a 0.
#[tactic(auto, unfolding(crate::specs::private::NumbersRead::one_more, crate::specs::private::NumbersRead::up_to))]
fn one_more(most: u32, value: u32, b: u8) -> Option<u32>
    ensures { written_number result ≡ one_more most value b }
{
    if value == 0 || !is_digit(b) {
        return None;
    }
    up_to(most, 10 * u64::from(value) + digit(b))
}

/// The number at `at` that the byte `end` ends and that is at most `most`.
pub fn number_at(bytes: &[u8], at: usize, end: u8, most: u32) -> Option<Number>
    ensures { MatchOption result (none ≡ number_cut most end (drop at bytes.now))
        (λ n. NumberMet most end bytes.now at n.value n.next) }
{
    let (first, others) = rest(bytes, at).split_first()?;
    let mut value = first_digit(most, end, *first)?;
    for (i, b) in others.iter().enumerate() {
        if *b == end {
            return Some(Number {
                value,
                next: at + i + 2,
            });
        }
        value = one_more(most, value, *b)?;
    }
    None
}

/// The line at `at`, if it has N numbers. No line has none.
pub fn numbers_line<const N: usize>(bytes: &[u8], at: usize) -> Option<NumbersLine<N>>
    ensures { MatchOption result (none ≡ first_numbers N (lines (drop at bytes.now)))
        (λ line. LineMet N bytes.now at line.numbers line.next) }
{
    let mut numbers = [0; N];
    let (last, others) = numbers.split_last_mut()?;
    let mut from = at;
    for n in others {
        let number = number_at(bytes, from, SPACE, MAX_NUMBER)?;
        *n = number.value as u16;
        from = number.next;
    }
    let number = number_at(bytes, from, NEWLINE, MAX_NUMBER)?;
    *last = number.value as u16;
    Some(NumbersLine {
        numbers,
        next: number.next,
    })
}

/// The bytes from `at` on; none from the text's end on.
pub fn rest(bytes: &[u8], at: usize) -> &[u8]
    ensures { result.now ≡ drop at bytes.now }
{
    bytes.get(at..).unwrap_or(&[])
}

/// Where `byte` stands first in the text, if it does.
pub fn find(text: &[u8], byte: u8) -> Option<usize>
    ensures { result ≡ position (λ x. x == byte) text.now }
{
    text.iter().position(|b| *b == byte)
}

/// Where the line that starts at `at` ends: at its newline, or with the text; at `at` itself past the text's end.
pub fn line_end(text: &[u8], at: usize) -> usize
    ensures { result ≡ at + first_length (lines (drop at text.now)) }
{
    let rest = rest(text, at);
    at + find(rest, NEWLINE).unwrap_or(rest.len())
}

/// Whether `word` stands at `at`.
#[tactic(auto, using(crate::proofs::Start::same_start))]
pub fn starts_with(bytes: &[u8], at: usize, word: &[u8]) -> bool
    ensures { result ≡ starts_with word.now (drop at bytes.now) }
{
    rest(bytes, at).starts_with(word)
}

/// Whether `word` stands at `at`, and the byte `end` behind it.
pub fn word_at(bytes: &[u8], at: usize, word: &[u8], end: u8) -> bool
    ensures { result ≡ starts_with (word.now ++ end ∷ []) (drop at bytes.now) }
{
    let rest = rest(bytes, at);
    rest.starts_with(word) && rest.get(word.len()) == Some(&end)
}

/// Whether `line` and a newline stand at `at`.
pub fn is_line(bytes: &[u8], at: usize, line: &[u8]) -> bool
    ensures { result ≡ starts_with (line.now ++ newline ∷ []) (drop at bytes.now) }
{
    word_at(bytes, at, line, NEWLINE)
}
