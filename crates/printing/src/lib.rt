// Reads an input, writes its listing to standard output, and opens the stored inputs of a program one by one.
#![tactic(auto)]

ghost use Rattle.std.specs.Prelude.{ℕ, ◌<◌, ◌≤◌, length, take, IfOk, OnErr};
ghost use Rattle.std.specs.Io.KnownBytes.{Consumes, IsAtEnd};

use std::fs::File;
use std::io::{self, Read, Write};
use std::rt::Files;

// Room for the longest input and one byte more, by which one that is too long is told; memory is fixed.
const ROOM: usize = 65537;

// Says on standard error what failed, as its caller names it, and why.
pub fn fail<R: Eprint>(rt: &R, name: &str, error: io::Error) {
    // where standard error cannot be written there is nobody to tell
    let _ = eprintln!(rt; "{name}: {error}");
}

// Writes the listing of what was read; 65,536 bytes are room for every listing (`listing_fits` of the crate `listing`).
fn write_listing<R: Print + Eprint>(rt: &R, input: &[u8]) {
    let mut out = [0; 65536];
    let end = listing::list(input, &mut out);
    let mut output = io::writer(rt);
    if let Err(error) = output.write_all(&out[..end]) {
        fail(rt, "write", error);
    }
}

// Reads to the end of the input or of the room, and answers how many bytes that is; after an error what was read stands at the front of the room.
// A read says how far it came, so the turns are not counted.
pub fn read_input<F: Read>(input: &mut F, room: &mut [u8]) -> io::Result<usize>
    ensures fits { IfOk result (λ count. count ≤ length room.old) }
    ensures bytes { IfOk result (λ count. Consumes (F.remaining input.old) (F.remaining input.new) (take count room.new)) }
    ensures end { IfOk result (λ count. count < length room.old → IsAtEnd (F.remaining input.new)) }
    ensures none_lost { OnErr result ((count : ℕ) × (count ≤ length room.old) × Consumes (F.remaining input.old) (F.remaining input.new) (take count room.new)) }
{
    let mut filled = 0;
    while filled < room.len() {
        let more = input.read(&mut room[filled..])?;
        if more == 0 {
            break;
        }
        filled += more;
    }
    Ok(filled)
}

// Prints the listing of an input, or says why it cannot be read; `name` is what the message calls it.
pub fn print_listing<R: Print + Eprint, F: Read>(rt: &R, input: &mut F, name: &str) {
    let mut room = [0; ROOM];
    match read_input(input, &mut room) {
        Ok(length) => write_listing(rt, &room[..length]),
        Err(error) => fail(rt, name, error),
    }
}

// Opens the stored input of a number, in the file that three digits name, and prints a line with the name; nothing where there is none.
pub fn open_stored<R: Files + Print>(rt: &R, number: u16) -> Option<R::File> {
    let digits = [number / 100, number / 10, number].map(|part| b'0' + (part % 10) as u8);
    let name = str::from_utf8(&digits).ok()?;
    let file = File::open(rt, name).ok()?;
    // a line that cannot be written is missed in what the program prints
    let _ = println!(rt; "= {name}");
    Some(file)
}
