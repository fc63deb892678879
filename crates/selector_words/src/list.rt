// The numbers that a lent list gives to names. The list is looked at in blocks. Most have no line that could be the
// name, and a look at all bytes of a block, without an early end, is quick.
ghost use Rattle.std.specs.Prelude.{◌≡◌, ℕ, true, false, cond, ◌+◌, ◌-◌, ◌<◌, ◌≤◌, leb, length, drop};
ghost use Rattle.std.specs.Prelude.{IsTrue, IfSome, MatchOption, MatchResult};
ghost use Rattle.lines.specs.Line.{newline, lines};
ghost use Rattle.lines.specs.Number.{max_number};
ghost use Rattle.selector_grammar.specs.Words.{number_of};
ghost use Rattle.selector_words.specs.private.Scan.{byte_at};
ghost use Rattle.selector_words.specs.private.Index.{signature_of, LineIndexed};
ghost use Rattle.selector_words.specs.private.Names.{first_line_is, block_size, given, LinesPassed, Searched};

use crate::index::{IndexedLine, ends_at, signature};
use crate::names::{Names, Word};
use lines::starts_with;

// How many bytes are looked at together: few enough for a u8 to count them.
const BLOCK: usize = 128;

// The number of the line before which n lines stand, if it is not above the largest.
fn number_after(n: usize) -> Option<u16>
    ensures { result ≡ given (cond (leb (n + 1) max_number) (n + 1) 0) }
{
    u16::try_from(n).ok()?.checked_add(1)
}

// A list of names, and the word that is sought in it. Its methods take places, and no slices of the list: a look at a
// block reads past the block's end.
#[derive(Clone, Copy)]
struct Search<'a> {
    names: &'a [u8],
    word: Word<'a>,
    // At how many places, from the first on, the list has room for the word.
    places: usize,
    ghost room: { places ≡ length names.now + 1 - length word.bytes.now },
}

impl<'a> Search<'a> {
    #[tactic(auto, using(crate::proofs::Named::word_there))]
    fn new(names: &'a [u8], word: Word<'a>) -> Search<'a>
        ensures { (result.names.now ≡ names.now) × (result.word.bytes.now ≡ word.entry.bytes.now) }
    {
        let places = names.len().saturating_sub(word.bytes.len() - 1);
        Search {
            names,
            word,
            places,
        }
    }

    // Whether the word may stand at `at`: its first and last bytes are there. It tells most lines apart, in less time
    // than a comparison of all bytes.
    #[inline(always)]
    #[tactic(auto, using(crate::proofs::Named::word_there, crate::proofs::Named::line_short, crate::proofs::Named::line_begins, crate::proofs::Named::line_closes,))]
    fn may_stand(self, at: usize) -> bool
        ensures fits { result ≡ true → at + length self.entry.word.bytes.now ≤ length self.entry.names.now }
        ensures other { result ≡ false → false ≡ first_line_is self.entry.word.bytes.now (lines (drop at self.entry.names.now)) }
    {
        let Search {
            names,
            word,
            places,
        } = self;
        let size = word.bytes.len();
        at < places && names[at] == word.bytes[0] && names[at + size - 1] == word.bytes[size - 1]
    }

    // Whether the line of the list that begins at `at` is the word. Out of line, lines of one signature take 3.6 times
    // as long.
    #[inline(always)]
    #[tactic(auto, using(crate::proofs::Named::line_other, crate::proofs::Named::line_ends))]
    fn is_name_line(self, at: usize) -> bool
        ensures { result ≡ first_line_is self.entry.word.bytes.now (lines (drop at self.entry.names.now)) }
    {
        let word = self.word.bytes;
        self.may_stand(at)
            && starts_with(self.names, at, word)
            && ends_at(self.names, at + word.len())
    }

    // Whether a newline stands at i and the line after it may be the word: its first and last bytes are there, and a
    // newline after them. Every byte is read, so that the look at a block has no branch.
    #[tactic(auto, using(crate::proofs::Named::word_there, crate::proofs::Listed::follows))]
    fn may_follow(self, i: usize) -> bool
        requires { i + length self.word.bytes.now + 1 < length self.names.now }
        ensures { result ≡ false → byte_at self.entry.names.now i ≡ newline
            → first_line_is self.entry.word.bytes.now (lines (drop (i + 1) self.entry.names.now)) ≡ false }
    {
        let Search { names, word, .. } = self;
        let size = word.bytes.len();
        let lined = (names[i] == lines::NEWLINE) & (names[i + size + 1] == lines::NEWLINE);
        let edged = (names[i + 1] == word.bytes[0]) & (names[i + size] == word.bytes[size - 1]);
        lined & edged
    }

    // A look at the block that begins at `at`: how many newlines it has, where no line that begins after one of them
    // may be the name.
    fn look(self, at: usize) -> Option<u8>
        requires { at + block_size + length self.word.bytes.now < length self.names.now }
        ensures { IfSome result (λ ends.
            Searched self.entry.names.now self.entry.word.bytes.now at (at + block_size) ends false) }
    {
        let mut ends = 0;
        let mut may = false;
        for k in at..at + BLOCK {
            ends += u8::from(self.names[k] == lines::NEWLINE);
            may |= self.may_follow(k);
        }
        if may { None } else { Some(ends) }
    }

    // The search from `from` up to `to`, one byte at a time: how many newlines stand there up to the first line that is
    // the name, or, where none is, how many there are.
    fn walk(self, from: usize, to: usize) -> Result<usize, usize>
        requires { (from ≤ to) × (to ≤ length self.names.now) }
        ensures { MatchResult result
            (λ ends. Searched self.entry.names.now self.entry.word.bytes.now from to ends true)
            (λ ends. Searched self.entry.names.now self.entry.word.bytes.now from to ends false) }
    {
        let mut ends = 0;
        for i in from..to {
            if self.names[i] == lines::NEWLINE {
                ends += 1;
                if self.is_name_line(i + 1) {
                    return Ok(ends);
                }
            }
        }
        Err(ends)
    }

    // The search of the block that begins at `at`.
    fn search_block(self, at: usize) -> Result<usize, usize>
        requires { at + block_size + length self.word.bytes.now < length self.names.now }
        ensures { MatchResult result
            (λ ends. Searched self.entry.names.now self.entry.word.bytes.now at (at + block_size) ends true)
            (λ ends. Searched self.entry.names.now self.entry.word.bytes.now at (at + block_size) ends false) }
    {
        match self.look(at) {
            Some(ends) => Err(usize::from(ends)),
            None => self.walk(at, at + BLOCK),
        }
    }

    // Whether a block begins at `at` that can be looked at.
    fn has_block(self, at: usize) -> bool
        requires { at ≤ length self.names.now }
        ensures { IsTrue result
            → at + block_size + length self.entry.word.bytes.now < length self.entry.names.now }
    {
        let rest = self.names.len() - at;
        let size = self.word.bytes.len();
        size < rest && BLOCK < rest - size
    }

    // Whether the word, whose signature is sought, is a line of the index.
    #[tactic(auto, using(crate::proofs::Indexed::line_unlike))]
    fn is_indexed_line(self, line: IndexedLine, sought: u32) -> bool
        requires { sought ≡ signature_of 0 self.word.bytes.now }
        ensures { (k : ℕ) → LineIndexed self.entry.names.now k line
            → result ≡ first_line_is self.entry.word.bytes.now (drop k (lines self.entry.names.now)) }
    {
        line.signature == sought && self.is_name_line(line.start as usize)
    }

    // The number of the first line that is the word, where none of the first lines is, as many as `passed` says, and
    // the others begin at `start`.
    #[tactic(auto, using(crate::proofs::Listed::first_hit, crate::proofs::Listed::sought_first))]
    fn search_from(self, start: usize, passed: usize) -> Option<u16>
        requires { LinesPassed self.names.now self.word.bytes.now start passed }
        ensures { result ≡ given (number_of self.entry.names.now self.entry.word.bytes.now) }
    {
        if self.is_name_line(start) {
            return number_after(passed);
        }
        let mut at = start;
        let mut passed = passed;
        // By `while`: a look reads past its block, and where no block is left the rest is walked from `at`.
        while self.has_block(at) {
            match self.search_block(at) {
                Ok(ends) => return number_after(passed + ends),
                Err(ends) => passed += ends,
            }
            at += BLOCK;
        }
        let ends = self.walk(at, self.names.len()).ok()?;
        number_after(passed + ends)
    }
}

// The first indexed line that is the word. In line, lines of one signature take 1.5 times as long.
#[inline(never)]
#[tactic(auto, using(crate::proofs::Indexed::before_more, crate::proofs::Indexed::index_hit))]
fn search_index(names: Names<'_>, word: Word<'_>) -> Option<usize>
    ensures { MatchOption result
        (LinesPassed names.entry.list.now word.entry.bytes.now names.entry.others (length names.entry.index.now))
        (λ k. number_of names.entry.list.now word.entry.bytes.now ≡ cond (leb (k + 1) max_number) (k + 1) 0) }
{
    let search = Search::new(names.list, word);
    let sought = signature(word.bytes);
    // By `for`: with `position` the search alone takes 1.9 times as long.
    for (k, line) in names.index.iter().enumerate() {
        if search.is_indexed_line(*line, sought) {
            return Some(k);
        }
    }
    None
}

/// The number that the list gives to the word: that of the first line that is the word.
pub fn number_of(names: Names<'_>, word: Word<'_>) -> Option<u16>
    ensures { result ≡ given (number_of names.entry.list.now word.entry.bytes.now) }
{
    if let Some(line) = search_index(names, word) {
        return number_after(line);
    }
    let search = Search::new(names.list, word);
    search.search_from(names.others, names.index.len())
}
