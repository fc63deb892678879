// What the program tally prints, of any list of names.
#![tactic(auto)]

mod judged;

ghost use Rattle.std.specs.Prelude.{◌≡◌, ◌⊎◌, true, false, [], IfSome};
ghost use Rattle.tallies.specs.Count.{file};
ghost use Rattle.tallies.specs.represent.Tally.{with_file};

use arrayvec::ArrayString;
use calls::answer_line::AnswerLine;
use judged::JudgedFiles;
use std::fmt::{Display, Write};
use std::fs::File;
use std::io::Read;
use std::rt::Files;
use tallies::Tally;

// The longest name that can be opened.
const LONGEST_NAME: usize = 4095;

/// The bytes of a list that are read: as many names as it may have, of the longest, with their newlines, and one byte
/// more. Of a longer list this much has one name more, or a name that is too long.
pub const LONGEST_LIST: usize = tallies::MAX_FILES * (LONGEST_NAME + 1) + 1;

// Longer than a line of two numbers.
const LONGEST_LINE: usize = 64;

/// The tally with the bundle that the reader gives; one whose reading fails, also in the middle, counts nowhere.
pub fn with_bundle<R: Read + Drop>(tally: Tally, reader: R) -> Tally
    ensures { IfSome (R.remaining reader)
        (λ xs. (result ≡ with_file tally (file false xs)) ⊎ (result ≡ with_file tally (file true []))) }
{
    // One byte more than a bundle may have, so that a longer one shows.
    let mut bytes = [0u8; common::MAX_BYTES + 1];
    match inputs::fill(reader, &mut bytes) {
        Ok(length) => tally.add(Some(&bytes[..length])),
        Err(_) => tally.add(None),
    }
}

// Reads the files of a list that was judged.
fn add_all(files: JudgedFiles) -> Tally {
    files
        .into_files()
        .into_iter()
        .flatten()
        .fold(Tally::new(), |tally, file| with_bundle(tally, file))
}

fn print_line<T: Display + Drop>(line: T) {
    let mut text = ArrayString::<LONGEST_LINE>::new();
    let _ = writeln!(text, "{line}");
    io::write_all(1, text.as_str().as_bytes());
}

fn print_tally(tally: Tally) {
    print_line("rule uses");
    for line in tally.lines() {
        print_line(line);
    }
}

/// Prints the tally of the bundles in the files that the list names: under the heading `rule uses` a line for each rule
/// from 1 up, and a last line with 0 and the total; of a list that is refused, `17 LINE` alone, and then no file is
/// read. No contract can speak of what is opened, read or printed; the numbers are those of crate tallies.
pub fn print_list(rt: &impl Files<File = File>, list: &[u8]) {
    match JudgedFiles::open(rt, list) {
        Ok(files) => print_tally(add_all(files)),
        Err(refused) => print_line(AnswerLine::from(refused)),
    }
}
