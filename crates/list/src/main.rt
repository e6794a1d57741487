// The listing program: prints the listing of the file that its argument names, or of its standard input where it has none.
#![tactic(auto)]

use std::fs::File;
use std::{env, io};

// Prints the listing of a named file, or says why it cannot be opened.
fn print_file(rt: &HostRuntime, path: &str) {
    match File::open(rt, path) {
        Ok(mut file) => printing::print_listing(rt, &mut file, path),
        Err(error) => printing::fail(rt, path, error),
    }
}

fn main(rt: HostRuntime) -> io::Result<()> {
    let mut arguments = env::args(&rt)?;
    match arguments.nth(1) {
        Some(path) => print_file(&rt, path.as_str()),
        None => printing::print_listing(&rt, &mut rt.reader(), "standard input"),
    }
    Ok(())
}
