// Asks many questions: of each line of standard input, OLD, a tab and NEW, prints whether a derivation was found, and
// of how many steps.
#![tactic(auto)]

use std::io;

fn main(rt: HostRuntime) -> io::Result<()> {
    for line in rt.lines(rt.alloc()) {
        let line = line?;
        if let Some((old, new)) = line.as_str().split_once('\t') {
            prove_reports::print_line(&rt, old, new)?;
        }
    }
    Ok(())
}
