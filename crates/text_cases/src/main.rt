// Selectors as text that another XPath engine has answered, and texts outside the grammar: makes the calls of a
// script from standard input and prints the nodes that each select marks, and what is refused. A line of another form
// ends it, and is printed as refused; so is input that is too long or whose reading fails, with line 0. The same
// program as engine_cases: the gate runs a program on one stored input.
#![tactic(auto)]

fn main(rt: HostRuntime) {
    script_replay::print_nodes(rt.stdin());
}
