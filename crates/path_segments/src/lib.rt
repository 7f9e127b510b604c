// The port of lfo/shape.rs, the times and the segments of its XY path, ready to evaluate.
#![tactic(auto)]

mod timing;

ghost use Rattle.std.specs.Prelude.{◌≡◌, ◌≤◌, ◌<◌, ◌-◌, ◌%◌, length};
ghost use Rattle.path_segments.specs.Segments.{empty_path, path_hold, path_between, path_contains, path_u, path_point, path_eval, last_of};
ghost use Rattle.path_segments.specs.View.{EachHasAll, leg_after, segment_after, segment_of};

use points::MAX_POINTS;
pub use timing::{segment_count, times};

// The most times a path holds: one more than it has segments.
pub const MAX_TIMES: usize = MAX_POINTS + 1;

// One segment of an XY path: with `u = (t − t0) × inv_w` and `h = 4u(1 − u)`, `X = ax + u·dx + h·nx` and `Y = ay + u·dy + h·ny`
// (a quadratic Bézier whose middle sits `n` from the chord's), valid for `lo ≤ t < hi`.
#[derive(Clone, Copy)]
pub struct PathSegment {
    pub lo: f32,
    pub hi: f32,
    pub t0: f32,
    pub inv_w: f32,
    pub ax: f32,
    pub dx: f32,
    pub nx: f32,
    pub ay: f32,
    pub dy: f32,
    pub ny: f32,
}

// The two outputs.
#[derive(Clone, Copy)]
pub struct Xy {
    pub x: f32,
    pub y: f32,
}

impl PathSegment {
    // The void segment, all zeros: it holds no `t`.
    pub fn default() -> Self
        ensures { result ≡ empty_path }
    {
        PathSegment::hold(0.0, 0.0, 0.0, 0.0)
    }

    // Constant outputs over `lo..hi`.
    pub fn hold(lo: f32, hi: f32, x: f32, y: f32) -> Self
        ensures { result ≡ path_hold lo hi x y }
    {
        Self {
            lo,
            hi,
            t0: 0.0,
            inv_w: 0.0,
            ax: x,
            dx: 0.0,
            nx: 0.0,
            ay: y,
            dy: 0.0,
            ny: 0.0,
        }
    }

    // From `x`, `y` at `t0` by `dx`, `dy` until `t1`, bowed by `bend`.
    pub fn between(t0: f32, t1: f32, x: f32, y: f32, dx: f32, dy: f32, bend: f32) -> Self
        ensures { result ≡ path_between t0 t1 x y dx dy bend }
    {
        let half = bend * 0.5;
        Self {
            lo: t0,
            hi: t1,
            t0,
            inv_w: 1.0 / (t1 - t0),
            ax: x,
            dx,
            nx: -half * dy,
            ay: y,
            dy,
            ny: half * dx,
        }
    }

    // Whether it holds `t`.
    pub fn contains(self, t: f32) -> bool
        ensures { result ≡ path_contains self t }
    {
        self.lo <= t && t < self.hi
    }

    // Where `t` falls in it, 0 to 1.
    pub fn u(self, t: f32) -> f32
        ensures { result ≡ path_u self t }
    {
        (t - self.t0) * self.inv_w
    }

    // Its X and Y at `t`.
    pub fn eval(self, t: f32) -> Xy
        ensures { result ≡ path_eval self t }
    {
        path_point(self.u(t), self)
    }
}

// A path segment's X and Y at `u`.
pub fn path_point(u: f32, s: PathSegment) -> Xy
    ensures { result ≡ path_point u s }
{
    let h = 4.0 * u * (1.0 - u);
    Xy {
        x: s.ax + u * s.dx + h * s.nx,
        y: s.ay + u * s.dy + h * s.ny,
    }
}

// The points of a path, lent, so that a search copies no path: as many as `xs` has, each with the bend of the segment after it; and
// when each segment starts and the last one ends.
#[derive(Clone, Copy)]
pub struct PathView<'a> {
    pub xs: &'a [f32],
    pub ys: &'a [f32],
    pub bends: &'a [f32],
    pub times: &'a [f32],
    pub closed: bool,
}

impl PathView<'_> {
    // The segment that holds time `t`.
    pub fn segment(self, t: f32) -> PathSegment
        requires { EachHasAll self }
        ensures { result ≡ segment_of self.entry t }
    {
        if self.xs.is_empty() {
            return PathSegment::hold(extrema::neg_infinity(), extrema::infinity(), 0.0, 0.0);
        }
        let n = segment_count(self.xs.len(), self.closed);
        if n == 0 {
            return PathSegment::hold(
                extrema::neg_infinity(),
                extrema::infinity(),
                self.xs[0],
                self.ys[0],
            );
        }
        self.segment_at(n, points::partition_point(&self.times[..n + 1], t))
    }

    // The segment after the first `i` of the `n + 1` times.
    fn segment_at(self, n: usize, i: usize) -> PathSegment
        requires { EachHasAll self × (0 < length self.xs.now) × (n ≤ length self.xs.now) }
        ensures { result ≡ segment_after self.entry n i }
    {
        if i == 0 {
            return PathSegment::hold(
                extrema::neg_infinity(),
                self.times[0],
                self.xs[0],
                self.ys[0],
            );
        }
        if i > n {
            let last = last_point(self.xs.len(), self.closed);
            return PathSegment::hold(
                self.times[n],
                extrema::infinity(),
                self.xs[last],
                self.ys[last],
            );
        }
        self.leg_segment(i)
    }

    // The segment from point `i - 1` to the one after it, which after the last point is the first.
    fn leg_segment(self, i: usize) -> PathSegment
        requires { EachHasAll self × (1 ≤ i) × (i ≤ length self.xs.now) }
        ensures { result ≡ leg_after self.entry i }
    {
        let a = i - 1;
        let b = next_point(i, self.xs.len());
        let x = self.xs[a];
        let y = self.ys[a];
        PathSegment::between(
            self.times[a],
            self.times[i],
            x,
            y,
            self.xs[b] - x,
            self.ys[b] - y,
            self.bends[a],
        )
    }
}

// The place after `i - 1` among `len` points in a round.
fn next_point(i: usize, len: usize) -> usize
    requires { 1 ≤ len }
    ensures { (result ≡ i % len) × (result < len) }
{
    i % len
}

// The point at which a path of `len` points ends.
fn last_point(len: usize, closed: bool) -> usize
    requires { 1 ≤ len }
    ensures { (result ≡ last_of len closed) × (result ≤ len - 1) }
{
    if closed {
        return 0;
    }
    len - 1
}
