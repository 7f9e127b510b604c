// Stored runs, records and items, for the programs that replay them: read from an input and played, and what they give shown on an output as hexadecimal digits, a line each.
//
// A stored one is its length and the length of the output that it is given, two bytes each, lower first, its kind, and then its bytes.
#![tactic(auto)]

ghost use Rattle.std.specs.Prelude.{◌≡◌, ◌≤◌, IfOk, IfSome, OnOk, take};
ghost use Rattle.std.specs.Io.KnownBytes.{Appends};
ghost use Rattle.std.specs.Io.{ReadsAtMost};
ghost use Rattle.stored.specs.Shown.{shown, line, AppendsLines};

use std::io;
use std::io::{Read, Write};

// More bytes than a stored one, or what it gives, has.
const ROOM: usize = 65536;

// More stored ones than an input has.
const MOST: u64 = 100000;

// What stands before the bytes.
#[derive(Clone, Copy)]
pub struct Head {
    pub len: usize,
    pub room: usize,
    pub kind: u8,
}

// What a call gave of its output.
#[derive(Clone, Copy)]
pub enum Given {
    // so many bytes
    Bytes(u64),
    // a number and so many bytes, in one: number + 256 · bytes
    Answer(u64),
}

// Reads until `buf` is full or the input ends, and answers how many bytes it put at its start.
pub fn read_full<R: Read>(input: &mut R, buf: &mut [u8]) -> io::Result<usize>
    ensures { ReadsAtMost result buf.new }
{
    let mut done = 0;
    // A `while`: how far a read goes is known only after it, and `read_exact` refuses an input that ends early.
    while done < buf.len() {
        let n = input.read(&mut buf[done..])?;
        if n == 0 {
            break;
        }
        done += n;
    }
    Ok(done)
}

// Reads the head of the next stored one, where there is one.
pub fn read_head<R: Read>(input: &mut R) -> io::Result<Option<Head>>
    ensures { IfOk result (λ found. IfSome found (λ head. (head.len ≤ 65535) × (head.room ≤ 65535))) }
{
    let mut head = [0u8; 5];
    if read_full(input, &mut head)? < 5 {
        return Ok(None);
    }
    let [len_low, len_high, room_low, room_high, kind] = head;
    Ok(Some(Head {
        len: u16::from_le_bytes([len_low, len_high]) as usize,
        room: u16::from_le_bytes([room_low, room_high]) as usize,
        kind,
    }))
}

// One line: the bytes.
pub fn show_bytes<W: Write>(to: &mut W, bytes: &[u8]) -> io::Result<()>
    ensures { OnOk result (Appends (W.contents to.old) (W.contents to.new) (shown bytes.now)) }
{
    for byte in bytes {
        write!(to, "{byte:02x}")?;
    }
    to.write_all(b"\n")
}

// The first `n` bytes, or all where there are fewer.
fn first(bytes: &[u8], n: u64) -> &[u8]
    ensures { result.now ≡ take n bytes.now }
{
    &bytes[..(n as usize).min(bytes.len())]
}

// One line: the number, where there is one, and then the bytes.
pub fn show<W: Write>(to: &mut W, given: Given, out: &[u8]) -> io::Result<()>
    ensures { OnOk result (Appends (W.contents to.old) (W.contents to.new) (line given out.now)) }
{
    match given {
        Given::Bytes(n) => show_bytes(to, first(out, n)),
        Given::Answer(a) => {
            write!(to, "{:02x}", (a % 256) as u8)?;
            show_bytes(to, first(out, a / 256))
        }
    }
}

// Reads what fills `bytes`, plays it with an output of `room` bytes, and shows what that gives.
fn play_next<R: Read, W: Write, F: Fn(u8, &[u8], &mut [u8]) -> Given>(
    input: &mut R,
    to: &mut W,
    kind: u8,
    bytes: &mut [u8],
    room: usize,
    play: &F,
) -> io::Result<()>
    requires { (room ≤ 65535) × F.IsAlwaysCallable play.now }
    ensures { OnOk result (AppendsLines (W.contents to.old) (W.contents to.new)) }
{
    let n = read_full(input, bytes)?;
    let mut out = [0u8; ROOM];
    let given = play(kind, &bytes[..n], &mut out[..room]);
    show(to, given, &out[..room])
}

// Reads a stored one and plays it; answers whether there was one.
fn next<R: Read, W: Write, F: Fn(u8, &[u8], &mut [u8]) -> Given>(
    input: &mut R,
    to: &mut W,
    play: &F,
) -> io::Result<bool>
    requires { F.IsAlwaysCallable play.now }
    ensures { OnOk result (AppendsLines (W.contents to.old) (W.contents to.new)) }
{
    let Some(head) = read_head(input)? else {
        return Ok(false);
    };
    let mut bytes = [0u8; ROOM];
    play_next(
        input,
        to,
        head.kind,
        &mut bytes[..head.len],
        head.room,
        play,
    )?;
    Ok(true)
}

// Reads stored ones until the input ends, and plays each: `play` is handed its kind, its bytes and its output. What is there on `to` stays, and lines come behind it.
pub fn replay<R: Read, W: Write, F: Fn(u8, &[u8], &mut [u8]) -> Given>(
    input: &mut R,
    to: &mut W,
    play: F,
) -> io::Result<()>
    requires { F.IsAlwaysCallable play }
    ensures { OnOk result (AppendsLines (W.contents to.old) (W.contents to.new)) }
{
    for _ in 0..MOST {
        if !next(input, to, &play)? {
            break;
        }
    }
    to.flush()
}
