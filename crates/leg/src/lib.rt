// The legs of a path drawn on squared paper, 4,096 squares a side (document 02, W-202): for each leg the `f32` nearest to the root of the
// sum of squares, judged by the squares of whole numbers. It stands for `(b.x - a.x).hypot(b.y - a.y)` of lfo/shape.rs. The products of
// floats, which read a coordinate, are exact.
#![tactic(auto)]

ghost use Rattle.std.specs.Prelude.{◌≡◌, ◌^◌, ◌<◌, ◌≤◌};
ghost use Rattle.leg.specs.Paper.{on_paper, squares_of, apart, sum_of_squares};
ghost use Rattle.leg.specs.Root.{Half, IsLeg};

// How many squares from the edge a coordinate lies.
fn squares(c: f32) -> u64
    ensures { (result ≡ squares_of c) × (result ≤ 4096) }
{
    let y = std::num::f32_to_f64_with_nan(extrema::clamp(c, 0.0, 1.0)) * 4096.0;
    saturate::f64_to_u64(y)
}

// Whether a coordinate is a multiple of 1/4096 within 0 to 1.
pub fn on_paper(c: f32) -> bool
    ensures { result ≡ on_paper c }
{
    let y = std::num::f32_to_f64_with_nan(c) * 4096.0;
    (whole::trunc(y) == y) & (0.0 <= c) & (c <= 1.0)
}

// How many squares apart two coordinates lie.
fn gap(a: f32, b: f32) -> u64
    ensures { (result ≡ apart (squares_of a) (squares_of b)) × (result ≤ 4096) }
{
    squares(a).abs_diff(squares(b))
}

// The whole number nearest to half the root of y: it is one of the `width` numbers from `lo` on, and in 24 turns the only one.
fn significand(y: u64) -> u64
    requires { (2 ^ 48 ≤ y) × (y < 2 ^ 50) }
    ensures { Half y result }
{
    let mut lo: u64 = 8388608;
    let mut width: u64 = 8388609;
    // It halves and counts no index, so a `for` is no plainer.
    while width > 1 {
        let half = width / 2;
        let edge = 2 * (lo + half) - 1;
        if edge * edge <= y {
            lo += half;
        }
        width -= half;
    }
    lo
}

// The f32 nearest to the root of n, over 4,096. The significand has 24 digits, and its last one is worth 2^(137 - s) units of 2^-149.
fn root(n: u64) -> f32
    requires { n ≤ 2 ^ 25 }
    ensures { IsLeg n result }
{
    if n == 0 {
        return 0.0;
    }
    let s = (n.leading_zeros() as u64 - 16) / 2;
    let m = significand(n << (2 * s + 2));
    f32::from_bits(((137 - s) * 8388608 + m) as u32)
}

// The length of the leg from (ax, ay) to (bx, by).
pub fn leg(ax: f32, ay: f32, bx: f32, by: f32) -> f32
    ensures { IsLeg (sum_of_squares ax ay bx by) result }
{
    let dx = gap(ax, bx);
    let dy = gap(ay, by);
    root(dx * dx + dy * dy)
}
