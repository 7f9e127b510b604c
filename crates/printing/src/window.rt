// The window through which an input is read.
ghost use Rattle.std.specs.Prelude.{◌+◌, ◌-◌, ◌≤◌, ◌<◌, ◌≡◌, IfOk, length, take};
ghost use Rattle.printing.specs.Windows.{Refills};

use std::io;
use std::io::Read;

// Reads at most `left` bytes to the place `have` of a window that is not full, and answers how many: none where the input has ended. The bytes before them stay.
fn read_more<R: Read>(input: &mut R, window: &mut [u8], have: usize, left: u64) -> io::Result<usize>
    requires { have < length window.old }
    ensures count { IfOk result (λ n. (have + n ≤ length window.new) × (n ≤ left)) }
    ensures same { take have window.new ≡ take have window.old }
{
    let end = have + left.min((window.len() - have) as u64) as usize;
    input.read(&mut window[have..end])
}

// Moves the bytes that are not taken to the front of the window, and reads at most `left` behind them. Answers how many: none where the input has ended.
pub fn refill<R: Read>(
    input: &mut R,
    window: &mut [u8],
    from: usize,
    have: usize,
    left: u64,
) -> io::Result<usize>
    requires { (from ≤ have) × (have ≤ length window.old) × (have - from < length window.old) }
    ensures { Refills window.old from have left result window.new }
{
    window.copy_within(from..have, 0);
    read_more(input, window, have - from, left)
}
