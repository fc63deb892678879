// Prints of each bundle in data/ what audit prints of it. The last one is a folder, whose reading fails.
#![tactic(auto)]

use std::fs::File;
use std::io;
use std::rt::Files;

fn print_case(rt: &impl Files<File = File>, name: &str) -> io::Result<()> {
    let file = File::open(rt, name)?;
    reports::print_report(file);
    Ok(())
}

fn main(rt: HostRuntime) -> io::Result<()> {
    print_case(&rt, "refused")?;
    print_case(&rt, "steps")?;
    print_case(&rt, "bytes_65536")?;
    print_case(&rt, "bytes_65537")?;
    print_case(&rt, ".")
}
