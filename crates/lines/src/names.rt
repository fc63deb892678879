// Lists of names, one a line. A last line may lack its newline.
ghost use Rattle.std.specs.Prelude.{◌≡◌, length};
ghost use Rattle.lines.specs.Line.{lines};
ghost use Rattle.lines.specs.Names.{NameMet};
ghost use Rattle.lines.specs.private.LineStarts.{NextMet, StartMet};

/// A name stands in a list from `start` on, and before `end`.
#[derive(Clone, Copy)]
pub struct Name {
    pub start: usize,
    pub end: usize,
}

/// Where the next line starts; the list's length where there is none, so that what goes from line to line ends there.
pub fn next_line(list: &[u8], at: usize) -> usize
    ensures { NextMet list.now at result }
{
    let end = crate::line_end(list, at);
    if end < list.len() {
        end + 1
    } else {
        list.len()
    }
}

// Where line k starts, counted from 0; where there is none, the list's length, to which all lines add up.
fn line_start(list: &[u8], k: usize) -> usize
    ensures { StartMet list.now k result }
{
    list.split_inclusive(|b| *b == crate::NEWLINE)
        .take(k)
        .map(|line| line.len())
        .sum()
}

/// How many names the list has.
pub fn count(list: &[u8]) -> usize
    ensures { result ≡ length (lines list.now) }
{
    list.split_inclusive(|b| *b == crate::NEWLINE).count()
}

/// Name k of the list, counted from 0; an empty one where there is none.
pub fn name_at(list: &[u8], k: usize) -> Name
    ensures { NameMet list.now k result.start result.end }
{
    let start = line_start(list, k);
    let end = crate::line_end(list, start);
    Name { start, end }
}
