// Makes the calls of a script on a register, a call a line, and prints the answers in one of two styles.
#![tactic(auto)]

ghost use Rattle.std.specs.Prelude.{◌≡◌};
ghost use Rattle.std.specs.Result.{result_err};
ghost use Rattle.terms.specs.represent.RowTypes.{PlaceIs};
ghost use Rattle.lines.specs.Line.{lines};
ghost use Rattle.script.specs.private.CommandRead.{written_command};
ghost use Rattle.script_replay.specs.Transcript.{word_taken, ending_line};

use arrayvec::ArrayString;
use calls::answer_line::AnswerLine;
use calls::{Answer, LineRefusal};
use common::Refusal;
use register::{Records, Register};
use script::{Command, NumberList};
use std::fmt::Write;
use std::io::Read;

// What the lent marks hold before a select, and a lent buffer before a write. Buffers are arrays, here, in reports and
// in tally_reports: fixed memory without a heap.
const FILL: u8 = 7;

// Longer than the longest line: two numbers, and 256 records of four numbers of at most five digits.
const LINE: usize = 8192;

// Longer than the longest answer: a word and two numbers of at most 5 and 20 digits.
const ANSWER: usize = 64;

/// What is printed. `Answers`: `NUMBER VALUE` for each call but document, old and new, after an accepted select the
/// marked nodes, after a listing the records' numbers, and after an accepted write the bundle's lines; `other` sets the
/// register aside and starts a new one, `order` and `bundle-order` compare the one set aside with it, and `fresh` is no
/// call. Other and what is lent print nothing. `Nodes`: the marked nodes of each accepted select, and `refused NUMBER
/// VALUE` for what is refused; `fresh` starts a new register, and `write`, `other`, `order`, `bundle-order` and the
/// listings are no calls.
#[derive(Clone, Copy, Debug, PartialEq, Eq)]
pub enum Style {
    Answers,
    Nodes,
}

// A line that is printed; what no longer fits is left out.
type Line = ArrayString<LINE>;

// Puts a node behind what the line has, and a space before it, but none at the line's start.
fn put_node(line: &mut Line, node: usize) {
    let _ = if line.is_empty() {
        write!(line, "{node}")
    } else {
        write!(line, " {node}")
    };
}

// An answer in a style: nothing where it is an accepted one that `Nodes` leaves out. It is accepted where its number is
// 0.
fn answer_line<A: Answer + Copy>(style: Style, answer: A) -> ArrayString<ANSWER> {
    let mut line = ArrayString::new();
    let told = AnswerLine::from(answer);
    let _ = match style {
        Style::Answers => write!(line, "{told}"),
        Style::Nodes if told.number == 0 => Ok(()),
        Style::Nodes => write!(line, "refused {told}"),
    };
    line
}

// The line that begins with an answer.
fn begin_line(answer: &ArrayString<ANSWER>) -> Line {
    let mut line = Line::new();
    let _ = line.try_push_str(answer.as_str());
    line
}

fn write_line<const SIZE: usize>(line: &mut ArrayString<SIZE>) {
    let _ = line.try_push('\n');
    io::write_all(1, line.as_str().as_bytes());
}

// No line where the style leaves the answer out.
fn print<A: Answer + Copy>(style: Style, answer: A) {
    let mut line = answer_line(style, answer);
    if !line.is_empty() {
        write_line(&mut line);
    }
}

// The number that a call gives which refuses nothing.
fn print_given(style: Style, n: usize) {
    print::<Result<usize, Refusal>>(style, Ok(n));
}

fn print_wrong_form(style: Style, line: usize) {
    let refusal = Refusal::WrongForm;
    print(style, LineRefusal { refusal, line });
}

// How many records are listed, and their numbers.
fn print_listing(listing: &Records) {
    let size = listing.size();
    let answer = answer_line::<Result<usize, Refusal>>(Style::Answers, Ok(size));
    let mut line = begin_line(&answer);
    for record in listing.list() {
        let _ = write!(
            line,
            " {} {} {} {}",
            record.series, record.edition, record.row, record.step
        );
    }
    write_line(&mut line);
}

// The bundle's own lines, behind the answer.
fn write(r: &Register, room: usize) {
    let mut buffer = [FILL; script::MAX_ROOM];
    let size = room.min(script::MAX_ROOM);
    let answer = r.write(&mut buffer[..size]);
    print(Style::Answers, answer);
    if let Ok(length) = answer {
        io::write_all(1, buffer.get(..length).unwrap_or(&[]));
    }
}

// What the calls of a script are made on, and how they are printed: the register, the one that is set aside, and what
// later calls are lent, a document, old rows, new rows, and names as their line has them.
#[derive(Drop)]
struct State<'a> {
    style: Style,
    register: Register,
    other: Register,
    document: NumberList,
    old: NumberList,
    new: NumberList,
    names: &'a [u8],
}

impl<'a> State<'a> {
    fn new(style: Style) -> State<'a> {
        State {
            style,
            register: Register::new(),
            other: Register::new(),
            document: NumberList::new(),
            old: NumberList::new(),
            new: NumberList::new(),
            names: &[],
        }
    }

    // The selector of a line, with the names that are lent.
    fn text(&mut self, selector: &[u8]) {
        let mut list = [0u8; common::MAX_BYTES];
        let size = script::put_names(self.names, &mut list);
        print(self.style, self.register.text(&list[..size], selector));
    }

    // Sets the register aside and takes a fresh one. Out of line, as the next: beside the other commands each of them
    // would clear the memory of a register.
    #[inline(never)]
    fn set_aside(&mut self) {
        self.other = std::mem::replace(&mut self.register, Register::new());
    }

    #[inline(never)]
    fn start_anew(&mut self) {
        self.register = Register::new();
    }

    // Makes a command, with the rest of its line, and prints its answer.
    fn make(&mut self, command: Command, rest: &'a [u8]) {
        let style = self.style;
        match command {
            Command::Term(row) => print(style, self.register.term(row)),
            Command::Step(step) => print(style, self.register.step(step)),
            Command::Point(name) => print(style, self.register.point(name)),
            Command::Return(name) => print(style, self.register.return_to(name)),
            Command::Text => self.text(rest),
            Command::WayBack(row) => print(style, self.register.way_back(row)),
            Command::Record(record) => print(style, self.register.record(record)),
            Command::Release(place) => print(style, self.register.release(place)),
            Command::Document(document) => self.document = document,
            Command::Old(old) => self.old = old,
            Command::New(new) => self.new = new,
            Command::Names => self.names = rest,
            Command::Other => self.set_aside(),
            Command::Fresh => self.start_anew(),
            asked => self.ask(asked),
        }
    }

    // Makes a command that changes nothing.
    fn ask(&self, command: Command) {
        let r = &self.register;
        let style = self.style;
        match command {
            Command::Select(row, context, limit, marks) => self.select(row, context, limit, marks),
            Command::Replace(by) => {
                let answer = r.replace(self.old.as_slice(), self.new.as_slice(), by.as_slice());
                print(style, answer)
            }
            Command::Write(room) => write(r, room),
            Command::Order(other, row) => print(style, self.other.order(other, r, row)),
            Command::BundleOrder => print(style, self.other.bundle_order(r)),
            Command::Current(series) => print_given(style, usize::from(r.current(series))),
            Command::Records => print_listing(&r.listing()),
            Command::Released => print_listing(&r.crew_listing()),
            Command::CrewCurrent(series) => print_given(style, usize::from(r.crew_current(series))),
            _ => {}
        }
    }

    // The nodes that are marked, behind the answer.
    fn select(&self, row: u16, context: u16, limit: u32, size: usize) {
        let mut marks = [FILL; script::MAX_MARKS];
        let size = size.min(script::MAX_MARKS);
        let answer = self.register.select(
            row,
            self.document.as_slice(),
            context,
            limit,
            &mut marks[..size],
        );
        let mut line = begin_line(&answer_line(self.style, answer));
        if answer.is_ok() {
            for (node, mark) in marks.iter().enumerate() {
                if *mark == 1 {
                    put_node(&mut line, node);
                }
            }
        }
        write_line(&mut line);
    }
}

// Whether a style takes the command.
fn is_taken(command: &Command, style: Style) -> bool
    ensures { result ≡ word_taken style (written_command command.now).word }
{
    match command {
        Command::Fresh => style == Style::Nodes,
        Command::Write(_)
        | Command::Other
        | Command::Order(..)
        | Command::BundleOrder
        | Command::Records
        | Command::Released => style == Style::Answers,
        _ => true,
    }
}

/// Makes the calls of a script, a call a line, from a fresh register, and prints their answers. The error is the number
/// of the line that ends it, the first that is not taken. What is printed is beyond contracts, since the C library's
/// write is.
pub fn run(input: &[u8], style: Style) -> Result<(), usize>
    ensures { PlaceIs (result_err result) (ending_line style 1 (lines input.now)) }
{
    let mut state = State::new(style);
    for (i, line) in input.split_inclusive(|b| *b == lines::NEWLINE).enumerate() {
        let read = script::call_at(line, 0)
            .filter(|read| is_taken(&read.command, style))
            .ok_or(i + 1)?;
        state.make(read.command, script::rest_at(line, 0));
    }
    Ok(())
}

// The same of a script that is read. A line that is not taken is printed as refusal 10; so is input that is too long,
// or whose reading fails, with line 0.
fn run_input<R: Read + Drop>(reader: R, style: Style) {
    // One byte more than is taken, so that longer input shows.
    let mut input = [0u8; common::MAX_BYTES + 1];
    let length = match inputs::fill(reader, &mut input) {
        Ok(length) if length <= common::MAX_BYTES => length,
        _ => return print_wrong_form(style, 0),
    };
    if let Err(line) = run(&input[..length], style) {
        print_wrong_form(style, line);
    }
}

/// What the program replay does with a script. Nothing is promised, since no contract can speak of what is printed.
pub fn print_answers<R: Read + Drop>(reader: R) {
    run_input(reader, Style::Answers)
}

/// What the programs engine_cases and text_cases do with one; as `print_answers`.
pub fn print_nodes<R: Read + Drop>(reader: R) {
    run_input(reader, Style::Nodes)
}
