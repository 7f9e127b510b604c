// What a call gives, written: numbers one behind the other, then the bits of floats. All of it is written, or nothing where there is no room.
#![tactic(auto)]

ghost use Rattle.std.specs.Prelude.{ℕ, ◌≡◌, ◌+◌, ◌<◌, ◌≤◌, ◌^◌, length, map};
ghost use Rattle.std.specs.Float.Ieee.{to_bits};
ghost use Rattle.std.specs.Float.{binary32};
ghost use Rattle.listlaws.specs.Write as written;
ghost use Rattle.number.specs.Encoded.{encoded};
ghost use Rattle.replies.specs.Replies.{bytes_of, bits_of, listed, WritesAll, Puts};

// What is written as one number.
trait Written: Copy {
    ghost number: { Self → ℕ };

    fn number(self) -> u64
        ensures { result ≡ number self };
}

impl Written for u64 {
    ghost number = { λ n. n };

    fn number(self) -> u64 {
        self
    }
}

// A float is the number of its bits.
impl Written for f32 {
    ghost number = { to_bits binary32 };

    fn number(self) -> u64 {
        bits(self)
    }
}

// The bits of `x`, with 7fc00000 for NaN.
pub fn bits(x: f32) -> u64
    ensures { result ≡ to_bits binary32 x }
{
    floatbits::bits_of_f32(x)
}

// How many bytes the numbers of `s` take.
fn size_of<T: Written>(s: &[T]) -> usize
    requires { length s.now ≤ 65600 }
    ensures { result ≡ length (bytes_of (map T.number s.now)) }
{
    let mut sum = 0;
    for n in s {
        sum += number::size(n.number());
    }
    sum
}

// Writes `n` where there is room, and answers the place after it.
fn put(out: &mut [u8], at: usize, n: u64) -> usize
    requires { at + length (encoded n) ≤ length out.old }
    ensures { written.Puts out.old at (encoded n) result out.new }
{
    number::write(out, at, n).unwrap()
}

// Writes the numbers of `s` where there is room.
fn put_all<T: Written>(out: &mut [u8], at: usize, s: &[T]) -> usize
    requires { at + length (bytes_of (map T.number s.now)) ≤ length out.old }
    ensures { Puts out.old at (map T.number s.now) result out.new }
{
    let mut place = at;
    for n in s {
        place = put(out, place, n.number());
    }
    place
}

// How many bytes numbers and two lists of floats take.
fn lists_size(s: &[u64], x: &[f32], y: &[f32]) -> usize
    requires { (length s.now ≤ 65600) × (length x.now ≤ 65600) × (length y.now ≤ 65600) }
    ensures { result ≡ length (bytes_of (listed s.now x.now y.now)) }
{
    size_of(s) + size_of(x) + size_of(y)
}

// Writes numbers and two lists of floats where there is room.
fn put_lists(out: &mut [u8], at: usize, s: &[u64], x: &[f32], y: &[f32]) -> usize
    requires { at + length (bytes_of (listed s.now x.now y.now)) ≤ length out.old }
    ensures { Puts out.old at (listed s.now x.now y.now) result out.new }
{
    let after = put_all(out, at, s);
    let between = put_all(out, after, x);
    put_all(out, between, y)
}

// Writes numbers and then the bits of two lists of floats at `at`, which may be any place. The bytes before and after them stay, and where there is no room all bytes do.
pub fn write_lists(out: &mut [u8], at: usize, s: &[u64], x: &[f32], y: &[f32]) -> Option<usize>
    requires { (length s.now ≤ 65600) × (length x.now ≤ 65600) × (length y.now ≤ 65600) }
    ensures { WritesAll out.old at (listed s.now x.now y.now) result out.new }
{
    if number::fits(out.len(), at, lists_size(s, x, y)) {
        Some(put_lists(out, at, s, x, y))
    } else {
        None
    }
}

// Writes the numbers alone.
pub fn write_numbers(out: &mut [u8], at: usize, s: &[u64]) -> Option<usize>
    requires { length s.now ≤ 65600 }
    ensures { WritesAll out.old at s.now result out.new }
{
    write_lists(out, at, s, &[], &[])
}
