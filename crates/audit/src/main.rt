// Reads a bundle from standard input and prints the answer, the refused line or 0, the steps held, and the rows of
// the last step, or zeros, under a heading.
#![tactic(auto)]

fn main(rt: HostRuntime) {
    reports::print_report(rt.stdin());
}
