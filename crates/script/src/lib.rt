// A line of a script as a call on a session: a word, and numbers after it, one space before each.
#![tactic(auto)]

mod list;
pub mod words;

ghost use Rattle.std.specs.Prelude.{◌≡◌, ◌+◌, ◌≤◌, min, length, take, drop};
ghost use Rattle.script.specs.Words.{max_numbers};
ghost use Rattle.script.specs.declared.words.Word.TheVariants as WORD;
ghost use Rattle.lines.specs.Line.{lines};
ghost use Rattle.calls.specs.represent.Tables.{step_width};
ghost use Rattle.script.specs.Command.{word_command, command_of};
ghost use Rattle.script.specs.Rest.{rest_of, newline_for_space, names_of, first_bytes};
ghost use Rattle.script.specs.private.CommandRead.{CountedRead, ListRead, RestRead, AloneRead, CallRead};

use crate::words::{MAX_LISTED, MAX_NUMBERS, WORDS, Word};
use calls::{STEP_WIDTH, Step};
pub use list::NumberList;
use records::Record;
use terms::{ROW_WIDTH, Row};

const MAX_LIMIT: u32 = u32::MAX;

/// The length of the longest marks buffer.
pub const MAX_MARKS: usize = 1024;

/// The length of the longest buffer of a write.
pub const MAX_ROOM: usize = common::MAX_BYTES;

/// A word with the numbers after it, by place, as a script's line has them: of a select, the row, the context node, the
/// limit and the length of the marks buffer that it is lent; of a write, the length of its buffer. What `names` and
/// `text` take stays in the line.
#[derive(Clone, Copy)]
pub enum Command {
    Term(Row),
    Step(Step),
    Select(u16, u16, u32, usize),
    Document(NumberList),
    Fresh,
    Old(NumberList),
    New(NumberList),
    Replace(NumberList),
    Write(usize),
    Point(u16),
    Return(u16),
    Other,
    Order(u16, u16),
    BundleOrder,
    Names,
    Text,
    Record(Record),
    Current(u16),
    Release(u16),
    Records,
    Released,
    CrewCurrent(u16),
    WayBack(u16),
}

/// The command of a line, and the position of the next line.
#[derive(Clone, Copy)]
pub struct CallLine {
    pub command: Command,
    pub next: usize,
}

// What is made of the N numbers at `at`, which go to the line's end, and of zeros behind them. Here and below places
// are counted in the whole text.
fn counted<const N: usize, F: FnOnce(u16, u16, u16, u16, u16) -> Command>(
    bytes: &[u8],
    at: usize,
    make: F,
) -> Option<CallLine>
    requires { (N ≤ step_width) × F.IsAlwaysCallable make }
    ensures { CountedRead N (F.post make) bytes.now at result }
{
    let line = lines::numbers_line::<N>(bytes, at)?;
    let mut numbers = [0; STEP_WIDTH];
    common::put_record(&mut numbers, 0, line.numbers);
    let [a, b, c, d, e] = numbers;
    Some(CallLine {
        command: make(a, b, c, d, e),
        next: line.next,
    })
}

// The same of the numbers of a select.
fn selection(bytes: &[u8], at: usize) -> Option<CallLine>
    ensures { CallRead (word_command WORD.Select) bytes.now at result }
{
    let row = lines::number_at(bytes, at, lines::SPACE, lines::MAX_NUMBER)?;
    let context = lines::number_at(bytes, row.next, lines::SPACE, lines::MAX_NUMBER)?;
    let limit = lines::number_at(bytes, context.next, lines::SPACE, MAX_LIMIT)?;
    let marks = lines::number_at(bytes, limit.next, lines::NEWLINE, MAX_MARKS as u32)?;
    Some(CallLine {
        command: Command::Select(
            row.value as u16,
            context.value as u16,
            limit.value,
            marks.value as usize,
        ),
        next: marks.next,
    })
}

// The same of the length of a buffer.
fn room(bytes: &[u8], at: usize) -> Option<CallLine>
    ensures { CallRead (word_command WORD.Write) bytes.now at result }
{
    let room = lines::number_at(bytes, at, lines::NEWLINE, MAX_ROOM as u32)?;
    Some(CallLine {
        command: Command::Write(room.value as usize),
        next: room.next,
    })
}

// The same of any bytes up to the line's end.
fn rest_call(bytes: &[u8], at: usize, command: Command) -> Option<CallLine>
    ensures { RestRead command bytes.now at result }
{
    let length = lines::find(lines::rest(bytes, at), lines::NEWLINE)?;
    Some(CallLine {
        command,
        next: at + length + 1,
    })
}

// The same of a list of up to `most` numbers.
fn listed<F: FnOnce(NumberList) -> Command>(
    bytes: &[u8],
    at: usize,
    most: usize,
    make: F,
) -> Option<CallLine>
    requires { (most ≤ max_numbers) × F.IsAlwaysCallable make }
    ensures { ListRead most (F.post make) bytes.now at result }
{
    let mut numbers = NumberList::new();
    let mut from = at;
    // By count: where the next number starts, and whether there is one, is known only when this one is read.
    for _ in 0..most {
        let Some(more) = lines::number_at(bytes, from, lines::SPACE, lines::MAX_NUMBER) else {
            let last = lines::number_at(bytes, from, lines::NEWLINE, lines::MAX_NUMBER)?;
            numbers.push(last.value as u16);
            return Some(CallLine {
                command: make(numbers),
                next: last.next,
            });
        };
        numbers.push(more.value as u16);
        from = more.next;
    }
    None
}

// The command of a word with what stands at `at`, a space behind the word. The word is no switch that a caller sets,
// here and in `alone`: `call_at` has read it in the text.
fn behind_word(bytes: &[u8], at: usize, word: Word) -> Option<CallLine>
    ensures { CallRead (word_command word) bytes.now at result }
{
    match word {
        Word::Term => counted::<ROW_WIDTH, _>(bytes, at, |kind, a, b, c, _| {
            Command::Term(Row { kind, a, b, c })
        }),
        Word::Step => counted::<STEP_WIDTH, _>(bytes, at, |rule, left, right, first, second| {
            Command::Step(Step::from([rule, left, right, first, second]))
        }),
        Word::Select => selection(bytes, at),
        Word::Document => listed(bytes, at, MAX_NUMBERS, Command::Document),
        Word::Old => listed(bytes, at, MAX_LISTED, Command::Old),
        Word::New => listed(bytes, at, MAX_LISTED, Command::New),
        Word::Replace => listed(bytes, at, MAX_LISTED, Command::Replace),
        Word::Write => room(bytes, at),
        Word::Point => counted::<1, _>(bytes, at, |name, _, _, _, _| Command::Point(name)),
        Word::Return => counted::<1, _>(bytes, at, |name, _, _, _, _| Command::Return(name)),
        Word::Order => counted::<2, _>(bytes, at, |other, row, _, _, _| {
            Command::Order(other, row)
        }),
        Word::Names => rest_call(bytes, at, Command::Names),
        Word::Text => rest_call(bytes, at, Command::Text),
        Word::Record => counted::<4, _>(bytes, at, |series, edition, row, step, _| {
            Command::Record(Record {
                series,
                edition,
                row,
                step,
            })
        }),
        Word::Current => counted::<1, _>(bytes, at, |series, _, _, _, _| Command::Current(series)),
        Word::Release => counted::<1, _>(bytes, at, |place, _, _, _, _| Command::Release(place)),
        Word::CrewCurrent => counted::<1, _>(bytes, at, |series, _, _, _, _| {
            Command::CrewCurrent(series)
        }),
        Word::WayBack => counted::<1, _>(bytes, at, |row, _, _, _, _| Command::WayBack(row)),
        Word::Fresh | Word::Other | Word::BundleOrder | Word::Records | Word::Released => None,
    }
}

// The command of a word that is all of its line; none where numbers are wanted.
fn alone(word: Word) -> Option<Command>
    ensures { AloneRead word result }
{
    match word {
        Word::Document => Some(Command::Document(NumberList::new())),
        Word::Fresh => Some(Command::Fresh),
        Word::Old => Some(Command::Old(NumberList::new())),
        Word::New => Some(Command::New(NumberList::new())),
        Word::Replace => Some(Command::Replace(NumberList::new())),
        Word::Other => Some(Command::Other),
        Word::BundleOrder => Some(Command::BundleOrder),
        Word::Names => Some(Command::Names),
        Word::Text => Some(Command::Text),
        Word::Records => Some(Command::Records),
        Word::Released => Some(Command::Released),
        _ => None,
    }
}

/// The call of the line at `at`.
pub fn call_at(bytes: &[u8], at: usize) -> Option<CallLine>
    ensures { CallRead command_of bytes.now at result }
{
    for word in WORDS {
        let text = word.text();
        let end = text.len() + 1;
        if lines::word_at(bytes, at, text, lines::SPACE) {
            return behind_word(bytes, at + end, word);
        }
        if lines::is_line(bytes, at, text) {
            let command = alone(word)?;
            return Some(CallLine {
                command,
                next: at + end,
            });
        }
    }
    None
}

/// The bytes behind the first space of the line at `at`; none where it has none.
pub fn rest_at(bytes: &[u8], at: usize) -> &[u8]
    ensures { result.now ≡ rest_of (first_bytes (lines (drop at bytes.now))) }
{
    let rest = lines::rest(bytes, at);
    let line = &rest[..lines::line_end(rest, 0)];
    match lines::find(line, lines::SPACE) {
        Some(length) => &line[length + 1..],
        None => &[],
    }
}

// A newline for a space; another byte stays.
fn newline_for_space(b: u8) -> u8
    ensures { result ≡ newline_for_space b }
{
    if b == lines::SPACE { lines::NEWLINE } else { b }
}

/// Writes the list of names that the bytes write, as much of it as there is room for. It gives how many bytes these
/// are.
pub fn put_names(bytes: &[u8], out: &mut [u8]) -> usize
    ensures { (result ≡ min (length bytes.now) (length out.old))
        × (take result out.new ≡ take result (names_of bytes.now))
        × (length out.new ≡ length out.old) }
{
    let size = bytes.len().min(out.len());
    // By index, byte by byte: a copy of all bytes would need the C library's `memmove` of a host in C.
    for i in 0..size {
        out[i] = newline_for_space(bytes[i]);
    }
    size
}
