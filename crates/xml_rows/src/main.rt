// Prints what is read of the documents on standard input, each behind a line with its length in bytes: a line with its
// number and the count of its rows, or with the place and the reason where it is refused, and a line for each row with
// its kind, parent, name, namespace and line. With the argument `sums` a checksum of the rows and one of their lines
// stand in place of them, and with `counts` nothing does.
#![tactic(auto)]

use std::io::{BufWriter, Read, Write};
use std::process::ExitCode;
use std::rt::Runtime;
use std::{env, io};
use xml_document::Document;
use xml_reader::read;

#[derive(Clone, Copy, Debug, PartialEq, Eq)]
enum Output {
    Rows,
    Sums,
    Counts,
}

// A row, as it is printed.
#[derive(Clone, Copy)]
struct Row<'a> {
    kind: u8,
    parent: u32,
    name: &'a [u8],
    namespace: &'a [u8],
    line: u32,
}

fn row_at(document: &Document, index: usize) -> Option<Row> {
    Some(Row {
        kind: *document.kinds.get(index)?,
        parent: *document.parents.get(index)?,
        name: document
            .name_table
            .get(*document.names.get(index)?)
            .unwrap_or(b"-"),
        namespace: document
            .namespace_table
            .get(*document.namespaces.get(index)?)
            .unwrap_or(b"-"),
        line: *document.lines.get(index)?,
    })
}

fn print_rows<W: io::Write>(out: &mut W, document: &Document) -> io::Result<()> {
    for index in 0..document.kinds.len() {
        let Some(row) = row_at(document, index) else {
            return Ok(());
        };
        write!(out, "{} {} ", row.kind, row.parent)?;
        out.write_all(row.name)?;
        out.write_all(b" ")?;
        out.write_all(row.namespace)?;
        write!(out, " {}\n", row.line)?;
    }
    Ok(())
}

// FNV-1a.
fn sum(start: u32, bytes: &[u8]) -> u32 {
    bytes.iter().fold(start, |sum, b| (sum ^ u32::from(*b)).wrapping_mul(16777619))
}

// The checksums of the rows and of the lines of those that are no attributes: other readers know no line of one.
fn sums(document: &Document) -> (u32, u32) {
    let mut rows = 2166136261u32;
    let mut lines = 2166136261u32;
    for index in 0..document.kinds.len() {
        let Some(row) = row_at(document, index) else {
            return (rows, lines);
        };
        rows = sum(rows, &u32::from(row.kind).to_le_bytes());
        rows = sum(rows, &row.parent.to_le_bytes());
        rows = sum(rows, row.name);
        rows = sum(rows, b" ");
        rows = sum(rows, row.namespace);
        rows = sum(rows, b" ");
        if row.kind != 5 {
            lines = sum(lines, &row.line.to_le_bytes());
        }
    }
    (rows, lines)
}

fn print_document<W: io::Write>(
    out: &mut W,
    number: usize,
    document: &Document,
    output: Output,
) -> io::Result<()> {
    let count = document.kinds.len();
    write!(out, "{number} {count}")?;
    if output == Output::Sums {
        let (rows, lines) = sums(document);
        write!(out, " {rows} {lines}")?;
    }
    out.write_all(b"\n")?;
    if output == Output::Rows {
        print_rows(out, document)?;
    }
    Ok(())
}

// The length in the line at `at`, and the place behind the line.
fn length_at(bytes: &[u8], at: usize) -> (usize, usize) {
    let mut length = 0usize;
    for i in at..bytes.len() {
        if bytes[i] == b'\n' {
            return (length, i + 1);
        }
        length = length
            .saturating_mul(10)
            .saturating_add(usize::from(bytes[i] & 0xF));
    }
    (0, bytes.len())
}

fn output_of(rt: &HostRuntime) -> io::Result<Output> {
    let mut words = env::args(rt)?;
    let _ = words.next();
    Ok(match words.next() {
        Some(word) if word.as_bytes() == b"sums".as_slice() => Output::Sums,
        Some(word) if word.as_bytes() == b"counts".as_slice() => Output::Counts,
        _ => Output::Rows,
    })
}

fn run(rt: &HostRuntime) -> io::Result<()> {
    let output = output_of(rt)?;
    let mut input = Vec::new(rt.alloc());
    rt.stdin().read_to_end(&mut input)?;
    let mut out = BufWriter::new(rt.alloc(), rt.stdout())?;
    let bytes = input.as_slice();
    let mut at = 0;
    for number in 0..bytes.len() {
        if at >= bytes.len() {
            break;
        }
        let (length, start) = length_at(bytes, at);
        let end = start.saturating_add(length);
        let Some(part) = bytes.get(start..end) else {
            break;
        };
        at = end;
        match read(rt.alloc(), part) {
            Ok(document) => print_document(&mut out, number, &document, output)?,
            Err(error) => write!(out, "{number} refused {error}\n")?,
        }
    }
    out.flush()
}

fn main(rt: HostRuntime) -> ExitCode {
    match run(&rt) {
        Ok(()) => ExitCode::SUCCESS,
        Err(_) => ExitCode::from(2u8),
    }
}
