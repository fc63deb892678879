// Makes the calls of a script's lines from a fresh session, and writes the bundle of what they leave.
#![tactic(auto)]

mod lent_names;

ghost use Rattle.std.specs.Prelude.{◌≡◌, []};
ghost use Rattle.std.proofs.Math.Option.{some};
ghost use Rattle.lines.specs.Line.{lines};
ghost use Rattle.calls.specs.Calls.{Call};
ghost use Rattle.calls.specs.represent.Answers.{answer_with};
ghost use Rattle.session.specs.View.{fresh_session};
ghost use Rattle.script.specs.Rest.{names_of};
ghost use Rattle.script_bundle.specs.Filing.{lending, makes, FileMet};
ghost use Rattle.script_bundle.specs.private.FilingMade.{lent_by, done, command_action, first_action};
ghost use Rattle.script_bundle.specs.private.FilingMade.{ActionDone, LinesMet, file_refusal_answer};
ghost use Rattle.script_bundle.specs.declared.FileRefusal.TheVariants as FILE;

use crate::lent_names::LentNames;
use calls::Answer;
use common::Refusal;
use script::Command;
use session::{LineRefusal, Session};

/// Why a script is refused: its first refused line, or what write refuses.
#[derive(Clone, Copy, Debug, PartialEq, Eq)]
pub enum FileRefusal {
    Line(LineRefusal),
    Write(Refusal),
}

// The refused line as its value, or the length needed. Twice the same match: the trait asks number and value apart.
impl Answer for FileRefusal {
    ghost answer = { file_refusal_answer };

    fn number(self) -> u16 {
        match self {
            FileRefusal::Line(refused) => refused.number(),
            FileRefusal::Write(refusal) => refusal.number(),
        }
    }

    fn value(self) -> usize {
        match self {
            FileRefusal::Line(refused) => refused.value(),
            FileRefusal::Write(refusal) => refusal.value(),
        }
    }
}

impl From<LineRefusal> for FileRefusal {
    ghost from_gives = { λ refused e. e ≡ FILE.Line refused };

    fn from(refused: LineRefusal) -> FileRefusal {
        FileRefusal::Line(refused)
    }
}

impl From<Refusal> for FileRefusal {
    ghost from_gives = { λ refusal e. e ≡ FILE.Write refusal };

    fn from(refusal: Refusal) -> FileRefusal {
        FileRefusal::Write(refusal)
    }
}

// Of a call that is accepted a script has no use for the value.
fn without_value<T: Copy>(answer: Result<T, Refusal>) -> Result<(), Refusal>
    ensures { result ≡ done answer }
{
    answer?;
    Ok(())
}

// What lines leave: the session, and the names that are lent to texts.
#[derive(Drop)]
struct Filed<'a> {
    session: Session,
    names: LentNames<'a>,
}

impl<'a> Filed<'a> {
    fn new() -> Filed<'a>
        ensures { (result.session ≡ fresh_session) × (result.names.bytes.now ≡ []) }
    {
        Filed {
            session: Session::new(),
            names: LentNames { bytes: &[] },
        }
    }

    // The names that the rest of a line lends, where they are not too many.
    fn lending(&mut self, rest: &'a [u8]) -> Result<(), Refusal>
        ensures { ActionDone self.old (lending (names_of rest.now)) result self.new }
    {
        if common::MAX_BYTES < rest.len() {
            return Err(Refusal::WrongForm);
        }
        self.names = LentNames { bytes: rest };
        Ok(())
    }

    // The text that the rest of a line is, with the names that are lent.
    fn text(&mut self, rest: &[u8]) -> Result<(), Refusal>
        ensures { ActionDone self.old (some (makes (Call.text (lent_by self.old) rest.now))) result self.new }
    {
        // Fixed memory without a heap. A plain array: `script::put_names` writes into a lent buffer.
        let mut list = [0u8; common::MAX_BYTES];
        let size = script::put_names(self.names.bytes, &mut list);
        without_value(self.session.text(&list[..size], rest))
    }

    // What a command does, with the rest of its line.
    fn command(&mut self, command: Command, rest: &'a [u8]) -> Result<(), Refusal>
        ensures { ActionDone self.old (command_action command (lent_by self.old) rest.now) result self.new }
    {
        match command {
            Command::Term(row) => without_value(self.session.term(row)),
            Command::Step(step) => without_value(self.session.step(step)),
            Command::Point(name) => self.session.point(name),
            Command::Return(name) => self.session.return_to(name),
            Command::Names => self.lending(rest),
            Command::Text => self.text(rest),
            _ => Err(Refusal::WrongForm),
        }
    }

    // What a line does.
    fn line(&mut self, line: &'a [u8]) -> Result<(), Refusal>
        ensures { ActionDone self.old (first_action (lent_by self.old) (lines line.now)) result self.new }
    {
        let read = script::call_at(line, 0).ok_or(Refusal::WrongForm)?;
        self.command(read.command, script::rest_at(line, 0))
    }
}

// The lines' calls. No line is made yet: what a script files is told from a fresh session on.
fn make_lines<'a>(script: &'a [u8], filed: &mut Filed<'a>) -> Result<(), LineRefusal>
    requires { (filed.old.session ≡ fresh_session) × (filed.old.names.bytes.now ≡ []) }
    ensures { LinesMet script.now result filed.new.session }
{
    for (i, line) in script.split_inclusive(|b| *b == lines::NEWLINE).enumerate() {
        let number = i + 1;
        filed.line(line).map_err(|refusal| LineRefusal {
            refusal,
            line: number,
        })?;
    }
    Ok(())
}

/// Makes the calls of the script's lines, and writes the bundle of what they leave into the buffer; it gives the
/// bundle's length. A refused script leaves the buffer.
pub fn file(script: &[u8], out: &mut [u8]) -> Result<usize, FileRefusal>
    ensures { FileMet script.now out.old (answer_with (λ n. n) file_refusal_answer result) out.new }
{
    let mut filed = Filed::new();
    make_lines(script, &mut filed)?;
    let length = filed.session.write(out)?;
    Ok(length)
}
