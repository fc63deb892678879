// Where a reading stands, and the rows it puts.
#![tactic(auto)]

ghost use Rattle.std.specs.Prelude.{ℕ, ◌≡◌, true, false, cond, suc, ◌+◌, ◌*◌, ◌<◌, ◌≤◌, max, eqb, get_or, length};
ghost use Rattle.common.specs.RowKinds.{step_row};
ghost use Rattle.common.specs.represent.Numbers.{axis_number, test_number, row_number};
ghost use Rattle.selector_grammar.specs.Bytes.{slash_byte};
ghost use Rattle.terms.specs.Row.{row, max_rows};
ghost use Rattle.terms.specs.represent.RowTypes.{row_of};
ghost use Rattle.selector_words.specs.private.Scan.{byte_at};
ghost use Rattle.selector_readings.specs.private.Build.{stands, ended, capped, refused_at, row_taken, no_room};
ghost use Rattle.selector_readings.specs.private.Build.{Sized, PutMet, Grown, below_of, some_of_put, only_in_step};
ghost use Rattle.selector_readings.specs.private.Build.{nothing_read, StepPut, HeadPut};
ghost use Rattle.selector_heads.specs.private.Head.{place_of};
ghost use Rattle.selector_readings.specs.private.Passing.{WordPassed, CloseMet, ConstPut, SlashPut, NegatePut};
ghost use Rattle.selector_readings.specs.private.Passing.{BeginPut, started, root_start};

use common::axis::Axis;
use common::node_test::NodeTest;
use common::row_kind::RowKind;
use selector_heads::{Head, Opens};
use selector_words::bytes::{byte_at, is_name, skip};
use terms::Row;

/// What was read ends before `at`, where no whitespace is. `row` is that of the last term read, `nesting` its nesting,
/// `count` how many rows there are. `missing` is the place of the first name that is not listed. A reading whose rows
/// don't all fit goes on, since a later byte may be refused; then its row and its count say nothing.
#[derive(Clone, Copy)]
pub struct Reading {
    pub at: usize,
    pub row: u16,
    pub nesting: u16,
    pub count: usize,
    pub fits: bool,
    pub missing: Option<usize>,
}

/// A path's beginning: a step must follow, with nothing before it, or below what the reading's row selects; or `/`
/// alone.
#[derive(Clone, Copy)]
pub enum Start {
    First(Reading),
    Below(Reading),
    Root(Reading),
}

/// Before the first byte.
pub fn nothing_read(count: usize) -> Reading
    ensures { stands result ≡ nothing_read count }
{
    Reading {
        at: 0,
        row: 0,
        nesting: 0,
        count,
        fits: true,
        missing: None,
    }
}

// The term is row n.
fn at_row(r: Reading, n: usize, count: usize, nesting: u16) -> Reading
    requires { n < max_rows }
    ensures { stands result ≡ row_taken (stands r) n count nesting }
{
    Reading {
        row: n as u16,
        count,
        nesting,
        ..r
    }
}

// The term's row doesn't fit.
fn no_row(r: Reading, nesting: u16) -> Reading
    ensures { stands result ≡ no_room (stands r) nesting }
{
    Reading {
        row: 0,
        nesting,
        fits: false,
        ..r
    }
}

/// A row that is held is used again; else it is added.
#[tactic(auto, using(crate::proofs::Built::table_count))]
pub fn put(rows: &mut [u16], r: Reading, row: Row, nesting: u16) -> Reading
    requires { Sized rows.old r.count }
    ensures { PutMet (row_of row) nesting rows.old (stands r) rows.new (stands result) }
{
    if !r.fits {
        return no_row(r, nesting);
    }
    let count = r.count;
    let end = terms::ROW_WIDTH * count;
    if let Some(found) = terms::find_row(&rows[..end], row) {
        return at_row(r, found, count, nesting);
    }
    if terms::MAX_ROWS <= count {
        return no_row(r, nesting);
    }
    common::put_record(rows, count, row.into());
    at_row(r, count, count + 1, nesting)
}

// The nesting above those of two operands; all that are too deep are counted as one.
fn above(x: u16, y: u16) -> u16
    ensures { result ≡ capped (suc (max x y)) }
{
    x.max(y).min(terms::MAX_NESTING) + 1
}

// A row of no operands. Its kind is a number, as in `join`: `constant` puts any.
fn put_leaf(rows: &mut [u16], r: Reading, kind: u16) -> Reading
    requires { Sized rows.old r.count }
    ensures { PutMet (row kind 0 0 0) 1 rows.old (stands r) rows.new (stands result) }
{
    put(
        rows,
        r,
        Row {
            kind,
            a: 0,
            b: 0,
            c: 0,
        },
        1,
    )
}

// A row of one operand, the term read last.
fn put_over(rows: &mut [u16], r: Reading, kind: RowKind) -> Reading
    requires { Sized rows.old r.count }
    ensures { PutMet (row (row_number kind) r.row 0 0)
        (capped (suc r.nesting)) rows.old (stands r) rows.new (stands result) }
{
    let row = Row {
        kind: u16::from(kind),
        a: r.row,
        b: 0,
        c: 0,
    };
    put(rows, r, row, above(r.nesting, 0))
}

/// A row of two operands, of which the right one was read last. Its kind may be any number.
pub fn join(rows: &mut [u16], kind: u16, left: Reading, right: Reading) -> Reading
    requires { Sized rows.old right.count }
    ensures { PutMet (row kind left.row right.row 0)
        (capped (suc (max left.nesting right.nesting))) rows.old (stands right) rows.new (stands result) }
{
    let row = Row {
        kind,
        a: left.row,
        b: right.row,
        c: 0,
    };
    put(rows, right, row, above(left.nesting, right.nesting))
}

// The row of a step without predicates.
fn step_row(axis: Axis, test: NodeTest, name: u16) -> Row
    ensures { row_of result ≡ row step_row (axis_number axis) (test_number test) name }
{
    Row {
        kind: u16::from(RowKind::Step),
        a: u16::from(axis),
        b: u16::from(test),
        c: name,
    }
}

/// The row of a step that ends before `at`; `unlisted` is the place of its name, if that is not listed. Any row may be
/// put.
pub fn put_step(
    rows: &mut [u16],
    from: Reading,
    at: usize,
    row: Row,
    unlisted: Option<usize>,
) -> Reading
    requires { Sized rows.old from.count }
    ensures { StepPut (row_of row) (place_of unlisted) rows.old (stands from) at rows.new (stands result) }
{
    let step = put(rows, Reading { at, ..from }, row, 1);
    let missing = step.missing.or(unlisted);
    Reading { missing, ..step }
}

/// The step of a head.
pub fn put_head(rows: &mut [u16], from: Reading, head: Head) -> Reading
    requires { Sized rows.old from.count }
    ensures { HeadPut rows.old (stands from) head rows.new (stands result) }
{
    let row = step_row(head.axis, head.test, head.name.number());
    put_step(rows, from, head.at, row, head.name.unlisted())
}

/// A step ends where nothing follows that only a step could take.
#[tactic(auto, unfolding(crate::specs::private::Build::only_in_step))]
pub fn step_end(s: &[u8], r: Reading) -> Result<Reading, usize>
    ensures { ended result ≡ cond (only_in_step (byte_at s.now r.at)) (refused_at r.at) (stands r) }
{
    match byte_at(s, r.at) {
        b'(' | b':' | b'[' => Err(r.at),
        _ => Ok(r),
    }
}

/// The closing byte b is due. It isn't 0, which `byte_at` gives past the end.
pub fn close(s: &[u8], r: Reading, b: u8) -> Result<Reading, usize>
    requires { eqb 0 b ≡ false }
    ensures { CloseMet s.now (stands r) b (ended result) }
{
    if byte_at(s, r.at) != b {
        return Err(r.at);
    }
    let at = skip(s, r.at + 1);
    Ok(Reading { at, ..r })
}

// descendant-or-self::node() below the path read.
fn every_below(rows: &mut [u16], path: Reading) -> Reading
    requires { Sized rows.old path.count }
    ensures { Grown below_of (λ n. suc (max n 1)) rows.old (stands path) rows.new (stands result) }
{
    let row = step_row(Axis::DescendantOrSelf, NodeTest::Node, 0);
    let step = put(rows, path, row, 1);
    join(rows, RowKind::Composition.into(), path, step)
}

/// Passes the `/` or `//` that follows a path, and the whitespace after it. That the `/` is there, the caller's loop
/// has tested.
pub fn pass_slash(s: &[u8], rows: &mut [u16], path: Reading) -> Reading
    requires { (byte_at s.now path.at ≡ slash_byte) × Sized rows.old path.count }
    ensures { SlashPut s.now rows.old (stands path) rows.new (stands result) }
{
    let next = path.at + 1;
    if byte_at(s, next) == b'/' {
        let below = every_below(rows, path);
        let at = skip(s, next + 1);
        return Reading { at, ..below };
    }
    let at = skip(s, next);
    Reading { at, ..path }
}

// `/` at the beginning of a path, alone or not; a second `/` can't follow it.
fn begin_root(s: &[u8], root: Reading) -> Result<Start, usize>
    ensures { started result ≡ root_start s.now (stands root) }
{
    let b = byte_at(s, root.at);
    if selector_heads::begins_step(b) {
        return Ok(Start::Below(root));
    }
    if b == b'/' {
        return Err(root.at);
    }
    Ok(Start::Root(root))
}

/// A path's beginning, up to its first step.
pub fn begin_path(s: &[u8], rows: &mut [u16], from: Reading) -> Result<Start, usize>
    requires at_in_bounds { from.at ≤ length s.now }
    requires sized { Sized rows.old from.count }
    ensures { BeginPut s.now rows.old (stands from) rows.new (started result) }
{
    let at = skip(s, from.at);
    let lead = Reading { at, ..from };
    if byte_at(s, at) != b'/' {
        return Ok(Start::First(lead));
    }
    let root = put_leaf(rows, lead, RowKind::Root.into());
    let next = at + 1;
    if byte_at(s, next) != b'/' {
        let end = skip(s, next);
        return begin_root(s, Reading { at: end, ..root });
    }
    let place = skip(s, next + 1);
    let below = every_below(rows, root);
    Ok(Start::Below(Reading { at: place, ..below }))
}

/// Some node is selected by the paths: not (paths in V).
pub fn some_of(rows: &mut [u16], paths: Reading) -> Reading
    requires { Sized rows.old paths.count }
    ensures { Grown some_of_put (λ n. suc (suc (max n 1))) rows.old (stands paths) rows.new (stands result) }
{
    let void = put_leaf(rows, paths, RowKind::Void.into());
    let inclusion = join(rows, RowKind::Inclusion.into(), paths, void);
    put_over(rows, inclusion, RowKind::Not)
}

/// The row of `not` over the expression in `not ( )`; a group is what it holds. `opens` is no switch that the caller
/// sets: it is what the text has there, and crate selector_reader reads what either holds in one place.
pub fn negate_if(rows: &mut [u16], opens: Opens, r: Reading) -> Reading
    requires { Sized rows.old r.count }
    ensures { NegatePut opens rows.old (stands r) rows.new (stands result) }
{
    match opens {
        Opens::Not => put_over(rows, r, RowKind::Not),
        _ => r,
    }
}

/// What follows the `(` of `true ( )` or `false ( )`. Any kind may be put, as in `join`.
pub fn constant(s: &[u8], rows: &mut [u16], from: Reading, kind: u16) -> Result<Reading, usize>
    requires at_in_bounds { from.at ≤ length s.now }
    requires sized { Sized rows.old from.count }
    ensures { ConstPut s.now kind rows.old (stands from) rows.new (ended result) }
{
    let at = skip(s, from.at);
    let shut = close(s, Reading { at, ..from }, b')')?;
    Ok(put_leaf(rows, shut, kind))
}

/// An operator name, which begins where r ends; its bytes aren't 0, as in `close`. What is refused is the first byte
/// that is not the name's, or the byte after the name, if that is a name's too.
pub fn pass_word(s: &[u8], r: Reading, word: &[u8]) -> Result<Reading, usize>
    requires at_in_bounds { r.at ≤ length s.now }
    requires no_zero { (k : ℕ) → k < length word.now → eqb 0 (get_or word.now k 0) ≡ false }
    ensures { WordPassed s.now word.now (stands r) (ended result) }
{
    for (i, b) in word.iter().enumerate() {
        let at = r.at + i;
        if byte_at(s, at) != *b {
            return Err(at);
        }
    }
    let end = r.at + word.len();
    if is_name(byte_at(s, end)) {
        return Err(end);
    }
    Ok(Reading { at: end, ..r })
}
