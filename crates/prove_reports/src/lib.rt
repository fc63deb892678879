// What the programs prove and prove_cases print of a question, whether one selector is contained in another.
#![tactic(auto)]

use calls::Answer;
use derivations::{Derivation, USUAL_LIMITS, Unknown, derive};
use std::alloc::{AllocError, Global};
use std::io;
use std::process::ExitCode;

// The statuses, but for 0, a derivation.
const REFUSED: u8 = 3;

const UNKNOWN: u8 = 4;

// The bundle of what the session holds, as its bytes.
fn bundle_of(alloc: Global, found: &Derivation) -> Result<Vec<u8>, Unknown> {
    let mut bytes = vec![in alloc; 0u8; common::MAX_BYTES].map_err(|_| Unknown::NoMemory)?;
    let length = found
        .session
        .write(bytes.as_mut_slice())
        .map_err(Unknown::Refused)?;
    bytes.truncate(length);
    Ok(bytes)
}

fn print_derivation(
    rt: &(impl Print + Alloc<A = Global>),
    found: Derivation,
) -> io::Result<ExitCode> {
    match bundle_of(rt.alloc(), &found) {
        Ok(bundle) => {
            let text = str::from_utf8(bundle.as_slice()).unwrap_or("");
            println!(rt;
                "yes: step {} says that OLD is contained in NEW",
                found.step
            )?;
            print!(rt; "{text}")?;
            Ok(ExitCode::SUCCESS)
        }
        Err(unknown) => print_unknown(rt, unknown),
    }
}

fn print_unknown(rt: &impl Print, unknown: Unknown) -> io::Result<ExitCode> {
    match unknown {
        Unknown::Old(refusal) | Unknown::New(refusal) => {
            println!(rt;
                "refused: {} {}, {unknown}",
                refusal.number(),
                refusal.value()
            )?;
            Ok(ExitCode::from(REFUSED))
        }
        _ => {
            println!(rt; "unknown: {unknown}")?;
            Ok(ExitCode::from(UNKNOWN))
        }
    }
}

/// Prints the verdict on a line: `yes`, with the step that says that the first selector is contained in the second,
/// and then the bundle; or why there is none. Gives the status: 0, 3 where a selector is refused, else 4. No contract
/// can speak of what is printed; that a yes is true is the contract of `derive`.
pub fn print_answer(
    rt: &(impl Print + Alloc<A = Global>),
    names: &[u8],
    old: &str,
    new: &str,
) -> io::Result<ExitCode> {
    match derive(
        rt.alloc(),
        names,
        old.as_bytes(),
        new.as_bytes(),
        USUAL_LIMITS,
    ) {
        Ok(found) => print_derivation(rt, found),
        Err(unknown) => print_unknown(rt, unknown),
    }
}

// Whether a character may stand in a name.
fn is_in_name(c: char) -> bool {
    c.is_ascii_alphanumeric() || c == '_' || c == '-' || c == '.'
}

// Appends the words of a selector that may be names, each once, one a line.
fn put_names(names: &mut String, selector: &str) -> Result<(), AllocError> {
    for word in selector.split(|c: char| !is_in_name(c)) {
        let begins = word.starts_with(|c: char| c.is_ascii_alphabetic() || c == '_');
        if begins && !names.lines().any(|name| name == word) {
            names.push_str(word)?;
            names.push_str("\n")?;
        }
    }
    Ok(())
}

/// Prints one line for a question without a list, whose names are numbered as they come: `yes` with the number of
/// steps, or why there is no derivation; and the question.
pub fn print_line(rt: &(impl Print + Alloc<A = Global>), old: &str, new: &str) -> io::Result<()> {
    let mut names = String::new(rt.alloc());
    put_names(&mut names, old)?;
    put_names(&mut names, new)?;
    let list = names.as_bytes();
    match derive(
        rt.alloc(),
        list,
        old.as_bytes(),
        new.as_bytes(),
        USUAL_LIMITS,
    ) {
        Ok(found) => println!(rt; "yes {}: {old} <= {new}", found.session.steps_held()),
        Err(unknown) => println!(rt; "{unknown}: {old} <= {new}"),
    }
}
