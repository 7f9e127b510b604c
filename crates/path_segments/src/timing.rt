// When in the cycle each point of a path is reached.
ghost use Rattle.std.specs.Prelude.{◌≡◌, ◌≤◌, length};
ghost use Rattle.path_segments.specs.Times.{segments_of, sum_to, share_of, times_of};

use crate::MAX_TIMES;

// How many segments a path of `len` points has.
pub fn segment_count(len: usize, closed: bool) -> usize
    ensures { (result ≡ segments_of len closed) × (result ≤ len) }
{
    if len < 2 {
        return 0;
    }
    if closed {
        return len;
    }
    len - 1
}

// The legs together.
fn total(legs: &[f32]) -> f32
    ensures { result ≡ sum_to legs.now (length legs.now) }
{
    let mut sum = 0.0;
    for leg in legs {
        sum += *leg;
    }
    sum
}

// When the end of leg `j` of `n` is reached, with `sum` of the `total` behind it: its share of the cycle. Legs of no length share the cycle evenly.
fn share(sum: f32, total: f32, j: usize, n: usize) -> f32
    requires { (j ≤ 64) × (n ≤ 64) }
    ensures { result ≡ share_of sum total j n }
{
    if total > 0.0 {
        return sum / total;
    }
    if n > 0 {
        return (j as f32) / (n as f32);
    }
    0.0
}

// The times of a path whose segments have these lengths.
pub fn times(legs: &[f32]) -> [f32; MAX_TIMES]
    requires { length legs.now ≤ 64 }
    ensures { result ≡ times_of legs.now (length legs.now) }
{
    let n = legs.len();
    let whole = total(legs);
    let mut out = [0.0; MAX_TIMES];
    let mut sum = 0.0;
    for (j, leg) in legs.iter().enumerate() {
        out[j] = share(sum, whole, j, n);
        sum += *leg;
    }
    out[n] = share(sum, whole, n, n);
    out
}
