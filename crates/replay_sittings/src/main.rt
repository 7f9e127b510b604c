// Plays the stored sittings of the file `stdin`, each its byte count as a record number and then its bytes, and prints their sheets, each with an empty line behind it. The file
// `stdout` has what the harness's own reader and the Rust source give: harness/ wrote both, by `harness/run vectors sittings`.
#![tactic(auto)]

use std::io;
use std::io::{BufReader, Read, Write};

// More sittings than the input has.
const MOST: u64 = 100000;

// A byte of the input, where there is one.
fn read_byte<R: Read>(input: &mut R) -> io::Result<Option<u8>> {
    let mut one = [0u8; 1];
    let there = input.read(&mut one)? == 1;
    Ok(there.then_some(one[0]))
}

// Reads the byte count of the next sitting, where there is one: at most ten bytes.
fn read_count<R: Read>(input: &mut R) -> io::Result<Option<u64>> {
    let mut bytes = [0u8; 10];
    for n in 0..10 {
        let Some(byte) = read_byte(input)? else {
            return Ok(None);
        };
        bytes[n] = byte;
        if byte < 128 {
            return Ok(
                number::read(&bytes[..n + 1], 0)
                    .ok()
                    .map(|(count, _)| count),
            );
        }
    }
    Ok(None)
}

// Reads so many bytes, and leaves them.
fn skip<R: Read>(input: &mut R, count: u64) -> io::Result<()> {
    for _ in 0..count {
        if read_byte(input)?.is_none() {
            break;
        }
    }
    Ok(())
}

// Prints the next sheet; answers whether there was one.
fn next<R: Read, W: Write, E: Write>(
    input: &mut R,
    to: &mut W,
    errors: &mut E,
) -> io::Result<bool> {
    let Some(count) = read_count(input)? else {
        return Ok(false);
    };
    let left = printing::print_sheet(input, to, errors, count);
    skip(input, left)?;
    to.write_all(b"\n")?;
    Ok(true)
}

fn main(rt: HostRuntime) -> io::Result<()> {
    let mut input = BufReader::new(rt.alloc(), rt.reader())?;
    let mut to = rt.stdout();
    let mut errors = rt.stderr();
    for _ in 0..MOST {
        if !next(&mut input, &mut to, &mut errors)? {
            break;
        }
    }
    Ok(())
}
