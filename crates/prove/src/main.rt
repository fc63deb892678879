// Looks for a derivation that OLD is contained in NEW: `prove OLD NEW`, with the list of names on standard input.
// Prints the verdict, and then the bundle. The status is 0 for a derivation, 2 for a wrong use, a list that is too long
// and what can't be read or written, 3 for a selector that is refused, 4 where none was found.
#![tactic(auto)]

use std::io;
use std::process::ExitCode;

const WRONG_USE: u8 = 2;

fn run(rt: &HostRuntime) -> io::Result<ExitCode> {
    let words: Vec<String> = std::env::args(rt)?.collect(rt.alloc())?;
    let [_, old, new] = words.as_slice() else {
        eprintln!(rt; "use: prove OLD NEW < NAMES")?;
        return Ok(ExitCode::from(WRONG_USE));
    };
    let names = inputs::read_bundle(rt.alloc(), rt.stdin())?;
    if common::MAX_BYTES < names.len() {
        eprintln!(rt;
            "prove: the list of names is longer than {} bytes",
            common::MAX_BYTES
        )?;
        return Ok(ExitCode::from(WRONG_USE));
    }
    prove_reports::print_answer(rt, names.as_slice(), old.as_str(), new.as_str())
}

fn main(rt: HostRuntime) -> ExitCode {
    match run(&rt) {
        Ok(status) => status,
        Err(_) => {
            let _ = eprintln!(rt; "prove: the list can't be read, or the answer can't be written");
            ExitCode::from(WRONG_USE)
        }
    }
}
