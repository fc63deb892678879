// What the program audit prints, of any reader.
#![tactic(auto)]

ghost use Rattle.std.specs.Prelude.{◌≡◌, ◌⊎◌, IfSome};
ghost use Rattle.auditing.specs.Audit.{report, unread};

use arrayvec::ArrayString;
use auditing::Report;
use std::fmt::Write;
use std::io::Read;

// Longer than the heading and five numbers of at most twenty digits.
const LONGEST_REPORT: usize = 256;

// The answer, the refused line or 0, the steps held, and the rows of the last step, or zeros, under a heading.
fn print(report: Report) {
    let mut text = ArrayString::<LONGEST_REPORT>::new();
    let _ = writeln!(text, "answer line steps left right\n{report}");
    io::write_all(1, text.as_str().as_bytes());
}

/// The report of the bundle that the reader gives. A reading that fails, also in the middle, has that of no bundle.
pub fn report_of<R: Read + Drop>(reader: R) -> Report
    ensures { IfSome (R.remaining reader) (λ xs. (result ≡ report xs) ⊎ (result ≡ unread)) }
{
    // One byte more than a bundle may have, so that a longer one shows.
    let mut bytes = [0u8; common::MAX_BYTES + 1];
    match inputs::fill(reader, &mut bytes) {
        Ok(length) => auditing::audit(&bytes[..length]),
        Err(_) => auditing::unread(),
    }
}

/// Reads a bundle and prints the report of it. No contract can speak of what is printed; the report is that of
/// `report_of`.
pub fn print_report<R: Read + Drop>(reader: R) {
    print(report_of(reader));
}
