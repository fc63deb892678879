// Prints of lists of the files in data/ what tally prints of them, and last of the list in standard input.
#![tactic(auto)]

use std::io;

fn main(rt: HostRuntime) -> io::Result<()> {
    // No name; names with and without the last newline; a name twice.
    tally_reports::print_list(&rt, b"");
    tally_reports::print_list(&rt, b"one\n");
    tally_reports::print_list(&rt, b"three\none\none");
    // Rules 1, 57, 58, by one step twice, and 59; a bundle of 1,024 rows and 2,048 steps.
    tally_reports::print_list(&rt, b"high_rules\n");
    tally_reports::print_list(&rt, b"full\n");
    // A refused bundle, an empty file, a directory, a file of 65,537 bytes.
    tally_reports::print_list(&rt, b"refused\nempty\n.\nbytes_65537\none\n");
    // A missing file at the first line and at a later one, an empty line, a name with a zero byte.
    tally_reports::print_list(&rt, b"missing\none\n");
    tally_reports::print_list(&rt, b"one\nrefused\nmissing\nmissing\n");
    tally_reports::print_list(&rt, b"one\n\none\n");
    tally_reports::print_list(&rt, b"one\none\0e\n");
    let mut list = [0u8; tally_reports::LONGEST_LIST];
    let length = inputs::fill(rt.stdin(), &mut list)?;
    tally_reports::print_list(&rt, &list[..length]);
    Ok(())
}
