// Selections that another XPath engine has answered: makes the calls of a script from standard input and prints the
// nodes that each select marks. A line of another form ends it, and is printed as refused; so is input that is too
// long or whose reading fails, with line 0.
#![tactic(auto)]

fn main(rt: HostRuntime) {
    script_replay::print_nodes(rt.stdin());
}
