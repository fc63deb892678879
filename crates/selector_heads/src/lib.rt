// What a step or an operand begins with.
#![tactic(auto)]

ghost use Rattle.std.specs.Prelude.{◌≡◌, true, false, ◌≤◌, length};
ghost use Rattle.selector_grammar.specs.Bytes.{is_space, is_start, is_quote, is_word, dot_byte, colon_byte};
ghost use Rattle.selector_grammar.specs.Words.{number_of};
ghost use Rattle.selector_words.specs.private.Scan.{byte_at, begins_step};
ghost use Rattle.selector_heads.specs.private.Head.{part, plain_head, named_head, opened_by, NameAt, DotMet};
ghost use Rattle.selector_heads.specs.private.Head.{TargetMet, TypeMet, TestMet, HeadMet, OperandMet, name_number};
ghost use Rattle.selector_heads.specs.private.Head.{name_place};

use common::axis::Axis;
use common::node_test::NodeTest;
use selector_words::bytes::{byte_at, is_start, name_end, skip};
use selector_words::{Names, Word};

/// The name of a step: its number in the list, or, where it is not listed, its place in the text.
#[derive(Clone, Copy)]
pub enum StepName {
    Unnamed,
    Listed(u16),
    Unlisted(usize),
}

impl StepName {
    /// Its number in the step's row, which has one for every step: 0 where the list gives none.
    pub fn number(self) -> u16
        ensures { result ≡ name_number self }
    {
        match self {
            StepName::Listed(number) => number,
            StepName::Unnamed | StepName::Unlisted(_) => 0,
        }
    }

    /// Its place, where it is not listed.
    pub fn unlisted(self) -> Option<usize>
        ensures { result ≡ name_place self }
    {
        match self {
            StepName::Unlisted(place) => Some(place),
            StepName::Unnamed | StepName::Listed(_) => None,
        }
    }
}

/// A step without its predicates: `at` is the first place after it that has no whitespace. `filters`: predicates may
/// follow; no other part of the head hangs on it.
#[derive(Clone, Copy)]
pub struct Head {
    pub at: usize,
    pub axis: Axis,
    pub test: NodeTest,
    pub name: StepName,
    pub filters: bool,
}

/// How an operand begins.
#[derive(Clone, Copy)]
pub enum Opens {
    Paths,
    Group,
    Not,
    True,
    False,
}

/// How it begins, and the place of its `(`; of paths, some place in the text.
#[derive(Clone, Copy)]
pub struct Operand {
    pub opens: Opens,
    pub paren: usize,
}

// A name in the text, and the first place after it that has no whitespace.
#[derive(Clone, Copy)]
struct NameRead {
    start: usize,
    end: usize,
    after: usize,
}

// A head without a name; `at` is the place after it and its whitespace.
fn plain_head(at: usize, axis: Axis, test: NodeTest, filters: bool) -> Head
    ensures { result ≡ plain_head at axis test filters }
{
    Head {
        at,
        axis,
        test,
        name: StepName::Unnamed,
        filters,
    }
}

#[tactic(auto, unfolding(selector_grammar::specs::Bytes::is_quote))]
fn is_quote(b: u8) -> bool
    ensures { result ≡ is_quote b }
{
    matches!(b, b'\'' | b'"')
}

// The name that begins at `at`.
#[tactic(auto, using(crate::proofs::Headed::start_there))]
fn name_from(s: &[u8], at: usize) -> NameRead
    requires { is_start (byte_at s.now at) ≡ true }
    ensures { (result.start ≡ at) × NameAt s.now result.start result.end result.after }
{
    let end = name_end(s, at + 1);
    let after = skip(s, end);
    NameRead {
        start: at,
        end,
        after,
    }
}

// `.` or `..` at `at`.
fn dot_head(s: &[u8], at: usize) -> Head
    requires { byte_at s.now at ≡ dot_byte }
    ensures { DotMet s.now at result }
{
    let next = at + 1;
    if byte_at(s, next) == b'.' {
        return plain_head(skip(s, next + 1), Axis::Parent, NodeTest::Node, false);
    }
    plain_head(skip(s, next), Axis::Itself, NodeTest::Node, false)
}

/// A selector as text, and the list of its names.
#[derive(Clone, Copy)]
pub struct Selector<'a> {
    pub s: &'a [u8],
    pub names: Names<'a>,
}

impl Selector<'_> {
    // A head with the name that stands from `from` up to `to`.
    fn named_head(self, from: usize, to: usize, at: usize, axis: Axis, test: NodeTest) -> Head
        requires from_le_to { (from ≤ to) × (to ≤ length self.s.now) }
        requires to_value { is_word (part self.s.now from to) ≡ true }
        ensures { result
            ≡ named_head at axis test (number_of self.entry.names.list.now (part self.entry.s.now from to)) from }
    {
        let bytes = &self.s[from..to];
        let name = match selector_words::list::number_of(self.names, Word { bytes }) {
            Some(number) => StepName::Listed(number),
            None => StepName::Unlisted(from),
        };
        Head {
            at,
            axis,
            test,
            name,
            filters: true,
        }
    }

    // What follows the quote at `at` of an instruction's target.
    #[tactic(auto, using(crate::proofs::Headed::start_there, crate::proofs::Headed::quote_there))]
    fn target_head(self, at: usize, axis: Axis) -> Result<Head, usize>
        requires at_value { is_quote (byte_at self.s.now at) ≡ true }
        ensures { TargetMet self.entry.s.now self.entry.names.list.now at axis result }
    {
        let s = self.s;
        let quote = byte_at(s, at);
        let from = at + 1;
        if !is_start(byte_at(s, from)) {
            return Err(from);
        }
        let end = name_end(s, from + 1);
        if byte_at(s, end) != quote {
            return Err(end);
        }
        let close = skip(s, end + 1);
        if byte_at(s, close) != b')' {
            return Err(close);
        }
        let at = skip(s, close + 1);
        Ok(self.named_head(from, end, at, axis, NodeTest::Target))
    }

    // What follows a node type and its `(`, from `at` on.
    fn type_head(self, at: usize, axis: Axis, test: NodeTest) -> Result<Head, usize>
        requires at_in_bounds { at ≤ length self.s.now }
        ensures { TypeMet self.entry.s.now self.entry.names.list.now at axis test result }
    {
        let inner = skip(self.s, at);
        let b = byte_at(self.s, inner);
        if b == b')' {
            return Ok(plain_head(skip(self.s, inner + 1), axis, test, true));
        }
        if test != NodeTest::Instruction {
            return Err(inner);
        }
        if !is_quote(b) {
            return Err(inner);
        }
        self.target_head(inner, axis)
    }

    // A node test that begins with a name.
    fn name_test(self, name: NameRead, axis: Axis) -> Result<Head, usize>
        requires name_at { NameAt self.s.now name.start name.end name.after }
        ensures { TestMet self.entry.s.now self.entry.names.list.now name.start axis
            (byte_at self.entry.s.now name.after ≡ colon_byte → ⊥) result }
    {
        let NameRead { start, end, after } = name;
        if byte_at(self.s, after) == b'('
            && let Some(test) = selector_words::type_of(&self.s[start..end])
        {
            return self.type_head(after + 1, axis, test);
        }
        Ok(self.named_head(start, end, after, axis, NodeTest::Name))
    }

    // A node test at `at`, where no whitespace is.
    fn test_head(self, at: usize, axis: Axis) -> Result<Head, usize>
        requires at_in_bounds { at ≤ length self.s.now }
        ensures { TestMet self.entry.s.now self.entry.names.list.now at axis
            (is_start (byte_at self.entry.s.now at) ≡ false) result }
    {
        let b = byte_at(self.s, at);
        if b == b'*' {
            return Ok(plain_head(skip(self.s, at + 1), axis, NodeTest::Star, true));
        }
        if !is_start(b) {
            return Err(at);
        }
        self.name_test(name_from(self.s, at), axis)
    }

    // A head with an axis name, after which a `:` stands.
    fn axis_head(self, name: NameRead) -> Result<Head, usize>
        requires name_at { NameAt self.s.now name.start name.end name.after }
        requires colon_value { byte_at self.s.now name.after ≡ colon_byte }
        ensures { HeadMet self.entry.s.now self.entry.names.list.now name.start result }
    {
        let axis = selector_words::axis_of(&self.s[name.start..name.end]).ok_or(name.after)?;
        let second = name.after + 1;
        if byte_at(self.s, second) != b':' {
            return Err(second);
        }
        self.test_head(skip(self.s, second + 1), axis)
    }

    /// The head that begins at `at`, where no whitespace is. That is asked, since it would refuse whitespace, which the
    /// grammar passes over; callers have passed it by `skip`.
    pub fn read_head(self, at: usize) -> Result<Head, usize>
        requires at_in_bounds { at ≤ length self.s.now }
        requires at_value { is_space (byte_at self.s.now at) ≡ false }
        ensures { HeadMet self.entry.s.now self.entry.names.list.now at result }
    {
        let b = byte_at(self.s, at);
        if b == b'.' {
            return Ok(dot_head(self.s, at));
        }
        if b == b'@' {
            return self.test_head(skip(self.s, at + 1), Axis::Attribute);
        }
        if !is_start(b) {
            return self.test_head(at, Axis::Child);
        }
        let name = name_from(self.s, at);
        if byte_at(self.s, name.after) == b':' {
            return self.axis_head(name);
        }
        self.name_test(name, Axis::Child)
    }
}

/// The byte begins a step.
#[tactic(auto, unfolding(selector_words::specs::private::Scan::begins_step))]
pub fn begins_step(b: u8) -> bool
    ensures { result ≡ begins_step b }
{
    is_start(b) || matches!(b, b'*' | b'@' | b'.')
}

// The words that open something else than paths before a `(`.
const CALLS: [(&[u8], Opens); 3] = [
    (b"not", Opens::Not),
    (b"true", Opens::True),
    (b"false", Opens::False),
];

// What a word that stands before a `(` opens.
fn opened_by(word: &[u8]) -> Opens
    ensures { result ≡ opened_by word.now }
{
    selector_words::find(&CALLS, word).unwrap_or(Opens::Paths)
}

/// How the operand that begins at `at` begins, where no whitespace is.
pub fn operand_at(s: &[u8], at: usize) -> Operand
    requires { at ≤ length s.now }
    ensures operand { OperandMet s.now at result.opens result.paren }
    ensures paren_in_bounds { result.paren ≤ length s.now }
{
    let paths = Operand {
        opens: Opens::Paths,
        paren: at,
    };
    let b = byte_at(s, at);
    if b == b'(' {
        return Operand {
            opens: Opens::Group,
            paren: at,
        };
    }
    if !is_start(b) {
        return paths;
    }
    let name = name_from(s, at);
    if byte_at(s, name.after) != b'(' {
        return paths;
    }
    Operand {
        opens: opened_by(&s[name.start..name.end]),
        paren: name.after,
    }
}
