// Prints the nodes that selectors select on documents of any size, which standard input has line by line: `names` with
// names, `row` with the kind, the parent and the name of a row, `document` behind the rows of one, which are then
// checked, `from` with a context node, and `select` with a selector as text. A line is printed for each document, its
// count of rows, and for each select the numbers of the nodes; where one is refused, the refusal in words.
#![tactic(auto)]

use session_documents::{Document, DocumentError, Rows, SelectionError, select_text};
use std::alloc::Global;
use std::io;
use std::io::{BufWriter, Read, Write};
use std::mem::replace;
use std::process::ExitCode;
use std::rt::Runtime;

// What the lines before gave: the names, one a line, the rows since the last document, that document, and the context
// node.
#[derive(Drop)]
struct Given {
    names: Vec<u8>,
    rows: Rows,
    document: Option<Document>,
    context: u32,
}

// The first three numbers of a line.
fn numbers_of(line: &[u8]) -> [u32; 3] {
    let mut numbers = [0u32; 3];
    let mut place = 0usize;
    for b in line {
        if *b == b' ' {
            place = (place + 1).min(2);
        } else {
            numbers[place] = numbers[place]
                .saturating_mul(10)
                .saturating_add(u32::from(*b & 0xF));
        }
    }
    numbers
}

// What stands behind the word, if the line begins with it and a space.
fn behind<'a>(line: &'a [u8], word: &[u8]) -> Option<&'a [u8]> {
    match line.strip_prefix(word)?.split_first()? {
        (b' ', rest) => Some(rest),
        _ => None,
    }
}

fn print_marks<W: io::Write>(out: &mut W, marks: &[bool]) -> io::Result<()> {
    let mut space = "";
    for (y, mark) in marks.iter().enumerate() {
        if *mark {
            write!(out, "{space}{y}")?;
            space = " ";
        }
    }
    out.write_all(b"\n")
}

impl Given {
    fn new(alloc: Global) -> Given {
        Given {
            names: Vec::new(alloc),
            rows: Rows::new(alloc),
            document: None,
            context: 0,
        }
    }

    fn name(&mut self, names: &[u8]) -> io::Result<()> {
        self.names.clear();
        for b in names {
            self.names.push(if *b == b' ' { b'\n' } else { *b })?;
        }
        Ok(())
    }

    fn push(&mut self, row: [u32; 3]) -> io::Result<()> {
        let [kind, parent, name] = row;
        let kind = u8::try_from(kind).unwrap_or(u8::MAX);
        let name = u16::try_from(name).unwrap_or(u16::MAX);
        self.rows.push(kind, parent, name)?;
        Ok(())
    }

    fn check<W: io::Write>(&mut self, alloc: Global, out: &mut W) -> io::Result<()> {
        let rows = replace(&mut self.rows, Rows::new(alloc));
        self.document = None;
        self.context = 0;
        match Document::check(rows, alloc) {
            Ok(document) => {
                write!(out, "{}\n", document.node_count())?;
                self.document = Some(document);
                Ok(())
            }
            Err(DocumentError::BadDocument(row)) => write!(out, "bad row {row}\n"),
            Err(DocumentError::OutOfMemory) => out.write_all(b"out of memory\n"),
        }
    }

    fn select<W: io::Write>(&self, alloc: Global, selector: &[u8], out: &mut W) -> io::Result<()> {
        let Some(document) = &self.document else {
            return out.write_all(b"no document\n");
        };
        match select_text(&self.names, selector, document, self.context, alloc) {
            Ok(marks) => print_marks(out, &marks),
            Err(SelectionError::Refused(refusal)) => write!(out, "{refusal}\n"),
            Err(SelectionError::OutOfMemory) => out.write_all(b"out of memory\n"),
        }
    }

    fn take<W: io::Write>(&mut self, alloc: Global, line: &[u8], out: &mut W) -> io::Result<()> {
        if let Some(row) = behind(line, b"row") {
            self.push(numbers_of(row))
        } else if let Some(names) = behind(line, b"names") {
            self.name(names)
        } else if let Some(context) = behind(line, b"from") {
            self.context = numbers_of(context)[0];
            Ok(())
        } else if let Some(selector) = behind(line, b"select") {
            self.select(alloc, selector, out)
        } else if line == b"document".as_slice() {
            self.check(alloc, out)
        } else {
            out.write_all(b"no such line\n")
        }
    }
}

fn run(rt: &HostRuntime) -> io::Result<()> {
    let alloc = rt.alloc();
    let mut input = Vec::new(alloc);
    rt.stdin().read_to_end(&mut input)?;
    let mut out = BufWriter::new(alloc, rt.stdout())?;
    let mut given = Given::new(alloc);
    for line in input.split_inclusive(|b| *b == b'\n') {
        given.take(alloc, line.strip_suffix(b"\n").unwrap_or(line), &mut out)?;
    }
    out.flush()
}

fn main(rt: HostRuntime) -> ExitCode {
    match run(&rt) {
        Ok(()) => ExitCode::SUCCESS,
        Err(_) => ExitCode::from(2u8),
    }
}
