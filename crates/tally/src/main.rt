// Reads up to 64 file names from standard input, one a line, and prints the uses of each rule over the bundles in
// these files. A list whose reading fails is an error, and nothing is printed.
#![tactic(auto)]

use std::io;

fn main(rt: HostRuntime) -> io::Result<()> {
    let mut list = [0u8; tally_reports::LONGEST_LIST];
    let length = inputs::fill(rt.stdin(), &mut list)?;
    tally_reports::print_list(&rt, &list[..length]);
    Ok(())
}
