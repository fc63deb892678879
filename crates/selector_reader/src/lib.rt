// Reads a selector typed as text and puts the rows of its term into a lent table. The readers go from left to right,
// one byte at a time; each takes where the reading stands and gives where it stands afterwards. A place is a number,
// and no rest of the text: a refusal tells the place of the first byte that can't continue, and that of a name that
// isn't listed.
#![tactic(auto)]

ghost use Rattle.std.specs.Prelude.{◌≡◌, true, false, min, ◌≤◌, length};
ghost use Rattle.terms.specs.Row.{max_rows};
ghost use Rattle.selector_grammar.specs.Bytes.{is_space, open_bracket};
ghost use Rattle.selector_words.specs.private.Scan.{byte_at};
ghost use Rattle.selector_words.specs.private.Index.{max_length};
ghost use Rattle.selector_readings.specs.private.Build.{stands, ended, Sized};
ghost use Rattle.selector_reader.specs.private.Readers.{Ready, PredicateMet, StepMet, PathMet, UnionMet, UnaryMet};
ghost use Rattle.selector_reader.specs.private.Readers.{AndMet};
ghost use Rattle.selector_reader.specs.private.Readers.{OrMet, TextMet, end_of};
ghost use Rattle.selector_reader.specs.Promises.{TextRead};

use common::Refusal;
use common::row_kind::RowKind;
use selector_heads::{Opens, Selector};
use selector_readings::{Reading, Start};
use selector_words::Names;
use selector_words::bytes::{byte_at, skip};
use terms::KeptRows;

// How deep predicates, groups and negations may nest.
const MAX_LEVELS: usize = 32;

// A list of fewer bytes is not indexed, nor for a text of fewer.
const MIN_LIST: usize = 2048;

const MIN_TEXT: usize = 32;

const MAX_LIST: usize = 4294967295;

/// The row of a text's term, and how many rows are held with those that it needs.
#[derive(Clone, Copy)]
pub struct TextHeld {
    pub row: u16,
    pub count: usize,
}

// A predicate whose `[` is where `from`, the step so far, ends.
#[cycle(expression)]
fn read_predicate(
    selector: Selector<'_>,
    rows: &mut [u16],
    from: Reading,
    left: usize,
) -> Result<Reading, usize>
    requires ready { Ready selector.s.now rows.old (stands from) }
    requires at_value { byte_at selector.s.now from.at ≡ open_bracket }
    ensures { PredicateMet selector.entry.s.now selector.entry.names.list.now
        left rows.old (stands from) rows.new (ended result) }
{
    if left == 0 {
        return Err(from.at);
    }
    let at = from.at + 1;
    let inner = read_or(selector, rows, Reading { at, ..from }, left - 1)?;
    let shut = selector_readings::close(selector.s, inner, b']')?;
    Ok(selector_readings::join(rows, RowKind::Filter.into(), from, shut))
}

// A step that begins at a place without whitespace: its head and predicates.
#[cycle(expression)]
fn read_step(
    selector: Selector<'_>,
    rows: &mut [u16],
    from: Reading,
    left: usize,
) -> Result<Reading, usize>
    requires ready { Ready selector.s.now rows.old (stands from) }
    requires at_value { is_space (byte_at selector.s.now from.at) ≡ false }
    ensures { StepMet selector.entry.s.now selector.entry.names.list.now
        left rows.old (stands from) rows.new (ended result) }
{
    let head = selector.read_head(from.at)?;
    let mut got = selector_readings::put_head(rows, from, head);
    if !head.filters {
        return selector_readings::step_end(selector.s, got);
    }
    // By `while`: where the next predicate begins is known only when this one is read.
    while byte_at(selector.s, got.at) == b'[' {
        got = read_predicate(selector, rows, got, left)?;
    }
    selector_readings::step_end(selector.s, got)
}

// Steps joined by `/` and `//`, which may stand in front of them too; or `/` alone.
#[cycle(expression)]
fn read_path(
    selector: Selector<'_>,
    rows: &mut [u16],
    from: Reading,
    left: usize,
) -> Result<Reading, usize>
    requires ready { Ready selector.s.now rows.old (stands from) }
    ensures { PathMet selector.entry.s.now selector.entry.names.list.now
        left rows.old (stands from) rows.new (ended result) }
{
    let mut got = match selector_readings::begin_path(selector.s, rows, from)? {
        Start::Root(root) => {
            return Ok(root);
        }
        Start::First(lead) => read_step(selector, rows, lead, left)?,
        Start::Below(lead) => {
            let step = read_step(selector, rows, lead, left)?;
            selector_readings::join(rows, RowKind::Composition.into(), lead, step)
        }
    };
    // By `while`: where the next step begins is known only when this one is read.
    while byte_at(selector.s, got.at) == b'/' {
        let before = selector_readings::pass_slash(selector.s, rows, got);
        let step = read_step(selector, rows, before, left)?;
        got = selector_readings::join(rows, RowKind::Composition.into(), before, step);
    }
    Ok(got)
}

// Paths joined by `|`.
#[cycle(expression)]
fn read_union(
    selector: Selector<'_>,
    rows: &mut [u16],
    from: Reading,
    left: usize,
) -> Result<Reading, usize>
    requires ready { Ready selector.s.now rows.old (stands from) }
    ensures { UnionMet selector.entry.s.now selector.entry.names.list.now
        left rows.old (stands from) rows.new (ended result) }
{
    let mut got = read_path(selector, rows, from, left)?;
    // By `while`: where the next path begins is known only when this one is read.
    while byte_at(selector.s, got.at) == b'|' {
        let at = got.at + 1;
        let path = read_path(selector, rows, Reading { at, ..got }, left)?;
        got = selector_readings::join(rows, RowKind::Union.into(), got, path);
    }
    Ok(got)
}

// An operand of `and` or `or`: paths, of which there must be some; an expression in `( )` or `not ( )`;
// `true ( )` or `false ( )`.
#[cycle(expression)]
fn read_operand(
    selector: Selector<'_>,
    rows: &mut [u16],
    from: Reading,
    left: usize,
) -> Result<Reading, usize>
    requires ready { Ready selector.s.now rows.old (stands from) }
    ensures { UnaryMet selector.entry.s.now selector.entry.names.list.now
        left rows.old (stands from) rows.new (ended result) }
{
    let operand = selector_heads::operand_at(selector.s, skip(selector.s, from.at));
    let at = operand.paren + 1;
    let inside = Reading { at, ..from };
    match operand.opens {
        Opens::Paths => {
            let paths = read_union(selector, rows, from, left)?;
            return Ok(selector_readings::some_of(rows, paths));
        }
        Opens::True => {
            return selector_readings::constant(selector.s, rows, inside, RowKind::True.into());
        }
        Opens::False => {
            return selector_readings::constant(selector.s, rows, inside, RowKind::False.into());
        }
        // Both go on below: what they hold is read alike, and in two arms it would be read in two places.
        Opens::Group | Opens::Not => {}
    }
    if left == 0 {
        return Err(operand.paren);
    }
    let inner = read_or(selector, rows, inside, left - 1)?;
    let shut = selector_readings::close(selector.s, inner, b')')?;
    Ok(selector_readings::negate_if(rows, operand.opens, shut))
}

// Operands joined by `and`.
#[cycle(expression)]
fn read_and(
    selector: Selector<'_>,
    rows: &mut [u16],
    from: Reading,
    left: usize,
) -> Result<Reading, usize>
    requires ready { Ready selector.s.now rows.old (stands from) }
    ensures { AndMet selector.entry.s.now selector.entry.names.list.now
        left rows.old (stands from) rows.new (ended result) }
{
    let mut got = read_operand(selector, rows, from, left)?;
    // By `while`: where the next operand begins is known only when this one is read.
    while byte_at(selector.s, got.at) == b'a' {
        let word = selector_readings::pass_word(selector.s, got, b"and")?;
        let right = read_operand(selector, rows, word, left)?;
        got = selector_readings::join(rows, RowKind::And.into(), got, right);
    }
    Ok(got)
}

// Those joined by `or`.
#[cycle(expression)]
fn read_or(
    selector: Selector<'_>,
    rows: &mut [u16],
    from: Reading,
    left: usize,
) -> Result<Reading, usize>
    requires ready { Ready selector.s.now rows.old (stands from) }
    ensures { OrMet selector.entry.s.now selector.entry.names.list.now
        left rows.old (stands from) rows.new (ended result) }
{
    let mut got = read_and(selector, rows, from, left)?;
    // By `while`: where the next operand begins is known only when this one is read.
    while byte_at(selector.s, got.at) == b'o' {
        let word = selector_readings::pass_word(selector.s, got, b"or")?;
        let right = read_and(selector, rows, word, left)?;
        got = selector_readings::join(rows, RowKind::Or.into(), got, right);
    }
    Ok(got)
}

// The reading of the whole text, where the first rows of the table are held, as many as `count` says. A refused text
// may leave other rows after them.
fn read_in(selector: Selector<'_>, rows: &mut [u16], count: usize) -> Result<Reading, Refusal>
    requires sized { Sized rows.old count }
    ensures { TextMet selector.entry.s.now selector.entry.names.list.now rows.old count rows.new (end_of count result) }
{
    let start = selector_readings::nothing_read(count);
    let got = read_union(selector, rows, start, MAX_LEVELS).map_err(Refusal::OutsideGrammar)?;
    if got.at < selector.s.len() {
        return Err(Refusal::OutsideGrammar(got.at));
    }
    if let Some(place) = got.missing {
        return Err(Refusal::UnlistedName(place));
    }
    if terms::MAX_NESTING < got.nesting {
        return Err(Refusal::TooDeep);
    }
    if !got.fits {
        return Err(Refusal::TermsFull);
    }
    Ok(got)
}

// Whether the list is indexed: an index of a short list, or for a short text, takes longer than the searches that it
// spares, and a place in a very long list is no number of 32 bits.
fn is_indexed(s: &[u8], names: &[u8]) -> bool
    ensures { result ≡ true → length names.now ≤ max_length }
{
    MIN_TEXT <= s.len() && MIN_LIST <= names.len() && names.len() <= MAX_LIST
}

// The same reading, by an index of the list.
fn read_indexed<'a>(
    s: &'a [u8],
    names: &'a [u8],
    rows: &mut [u16],
    count: usize,
) -> Result<Reading, Refusal>
    requires sized { Sized rows.old count }
    requires names_len_bound { length names.now ≤ max_length }
    ensures { TextMet s.now names.now rows.old count rows.new (end_of count result) }
{
    let mut index = selector_words::index::blank_index();
    let (size, others) = selector_words::index::index_lines(names, &mut index);
    let names = Names {
        list: names,
        index: &index[..size],
        others,
    };
    read_in(Selector { s, names }, rows, count)
}

// The same reading, with an index or without.
fn read_listed<'a>(
    s: &'a [u8],
    names: &'a [u8],
    rows: &mut [u16],
    count: usize,
) -> Result<Reading, Refusal>
    requires { Sized rows.old count }
    ensures { TextMet s.now names.now rows.old count rows.new (end_of count result) }
{
    if is_indexed(s, names) {
        return read_indexed(s, names, rows, count);
    }
    let names = Names {
        list: names,
        index: &[],
        others: 0,
    };
    read_in(Selector { s, names }, rows, count)
}

/// The reading of the text `s` with the lent list of names, where the first rows of the table are held, as many as
/// `count` says; a count above the limit is read as the limit. Nothing is kept of the rows. A refused reading leaves
/// rows of no use in the table, whose numbers are put back.
pub fn read_text(
    s: &[u8],
    names: &[u8],
    table: &mut KeptRows,
    count: usize,
) -> Result<TextHeld, Refusal>
    ensures read { TextRead names.now s.now table.old.numbers (min count max_rows) table.new.numbers result }
    ensures nothing_kept { table.new.count ≡ 0 }
{
    let held = count.min(terms::MAX_ROWS);
    let before = table.numbers;
    table.count = 0;
    match read_listed(s, names, &mut table.numbers, held) {
        Ok(Reading { row, count, .. }) => Ok(TextHeld { row, count }),
        Err(refusal) => {
            table.numbers = before;
            Err(refusal)
        }
    }
}
