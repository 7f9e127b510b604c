// The sheet of a sitting on an input, printed on an output as it is read. The input goes through a window and the text through a buffer, so that memory does not
// grow with the sitting. What is printed is `Prints` of crate sittings: pieces are read, turns are taken by the bytes at hand, and where the input has ended what is still due is
// written; so it is the sheet (`PrintsSheet`), however the input is cut into pieces.
#![tactic(auto)]

mod window;

ghost use Rattle.std.specs.Prelude.{◌≤◌, ◌<◌, ◌^◌, ◌≡◌, true, false, length};
ghost use Rattle.turns.specs.Turns.{is_over, turn_room};

use std::io::{Read, Write};
use turns::Sitting;
use window::refill;

// The bytes of the window.
const SPAN: usize = 65536;

// The frames of a block, at most.
const BLOCK: usize = 4096;

// The text of two blocks at least.
const ROOM: usize = 319488;

// More bytes than any input has. Their events can be counted.
const MOST: u64 = 0x8000_0000_0000_0000;

// Writes what was printed, and answers whether to go on: not where the output is closed, or nothing more is printed.
fn print_some<W: Write>(to: &mut W, text: &[u8], t: &Sitting) -> bool
    ensures { result ≡ true → is_over t.now ≡ false }
{
    to.write_all(text).is_ok() && !turns::is_over(t)
}

// Writes what is still due where the input has ended.
fn print_last<W: Write>(to: &mut W, t: Sitting, s: &[u8], out: &mut [u8])
    requires { turn_room ≤ length out.old }
{
    let n = turns::last_text(t, s, out);
    let _ = to.write_all(&out[..n]);
}

// Prints on `to` the sheet of the sitting in the next `most` bytes of `input`, or in all where there are fewer, and words on a read that fails on `errors`. Answers how many of
// these bytes it has not read: it stops at the first fault, and where `to` is closed.
pub fn print_sheet<R: Read, W: Write, E: Write>(
    input: &mut R,
    to: &mut W,
    errors: &mut E,
    most: u64,
) -> u64
    ensures { result ≤ most }
{
    let mut window = [0; SPAN];
    let mut x = [0.0; BLOCK];
    let mut y = [0.0; BLOCK];
    let mut out = [0; ROOM];
    let mut sitting = turns::begin();
    let mut from = 0;
    let mut have = 0;
    let mut left = most.min(MOST);
    // How far it goes is known only after a read, so this is no `for`.
    loop {
        let r = turns::take_turns(sitting, &window[from..have], &mut x, &mut y, &mut out);
        sitting = r.sitting;
        from += r.taken;
        if !print_some(to, &out[..r.written], &sitting) {
            return left;
        }
        if !r.full {
            let Ok(count) = refill(input, &mut window, from, have, left) else {
                let _ = errors.write_all(b"standard input cannot be read\n");
                return left;
            };
            have = have - from + count;
            from = 0;
            left -= count as u64;
            if count == 0 {
                break;
            }
        }
    }
    print_last(to, sitting, &window[..have], &mut out);
    left
}
