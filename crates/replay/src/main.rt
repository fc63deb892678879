// Makes the calls of a script from standard input on a register and prints each answer. A line of another form ends it
// and is printed as refusal 10; so is input that is too long or whose reading fails, with line 0.
#![tactic(auto)]

fn main(rt: HostRuntime) {
    script_replay::print_answers(rt.stdin());
}
