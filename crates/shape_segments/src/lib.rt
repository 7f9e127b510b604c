// The port of lfo/shape.rs, the segments of its drawn shape, ready to evaluate.
#![tactic(auto)]

ghost use Rattle.std.specs.Prelude.{◌≡◌, ◌≤◌, ◌<◌, length};
ghost use Rattle.shape_segments.specs.Segments.{empty_segment, hold_of, between_of, contains_of, u_of, eval_of, curve_of};
ghost use Rattle.shape_segments.specs.View.{EachHasAll, segment_after, segment_of};

// One segment of a drawn shape: `y = y0 + dy × u / (u + (1 − u) × e)` with `u = (x − x0) × inv_w`, valid for `lo ≤ x < hi`.
#[derive(Clone, Copy)]
pub struct Segment {
    pub lo: f32,
    pub hi: f32,
    pub x0: f32,
    pub inv_w: f32,
    pub y0: f32,
    pub dy: f32,
    pub e: f32,
}

impl Segment {
    // The void segment, all zeros: it holds no `x`.
    pub fn default() -> Self
        ensures { result ≡ empty_segment }
    {
        Self {
            lo: 0.0,
            hi: 0.0,
            x0: 0.0,
            inv_w: 0.0,
            y0: 0.0,
            dy: 0.0,
            e: 0.0,
        }
    }

    // A constant `y` over `lo..hi`.
    pub fn hold(lo: f32, hi: f32, y: f32) -> Self
        ensures { result ≡ hold_of lo hi y }
    {
        Self {
            lo,
            hi,
            x0: 0.0,
            inv_w: 0.0,
            y0: y,
            dy: 0.0,
            e: 1.0,
        }
    }

    // From `y0` at `x0` to `y1` at `x1`, bent by `e`.
    pub fn between(x0: f32, x1: f32, y0: f32, y1: f32, e: f32) -> Self
        ensures { result ≡ between_of x0 x1 y0 y1 e }
    {
        Self {
            lo: x0,
            hi: x1,
            x0,
            inv_w: 1.0 / (x1 - x0),
            y0,
            dy: y1 - y0,
            e,
        }
    }

    // Whether it holds `x`.
    pub fn contains(self, x: f32) -> bool
        ensures { result ≡ contains_of self x }
    {
        self.lo <= x && x < self.hi
    }

    // Where `x` falls in it, 0 to 1.
    pub fn u(self, x: f32) -> f32
        ensures { result ≡ u_of self x }
    {
        (x - self.x0) * self.inv_w
    }

    // Its value at `x`.
    pub fn eval(self, x: f32) -> f32
        ensures { result ≡ eval_of self x }
    {
        curve(self.u(x), self.y0, self.dy, self.e)
    }
}

// The curve every drawn segment follows: from `y0` at u = 0 towards `y0 + dy` at u = 1, bent by `e` (1 is straight).
pub fn curve(u: f32, y0: f32, dy: f32, e: f32) -> f32
    ensures { result ≡ curve_of u y0 dy e }
{
    y0 + dy * (u / (u + (1.0 - u) * e))
}

// The points of a drawn shape, lent, so that a search copies no shape: as many as `xs` has, each with the strength of the segment
// after it, and whether that is a step.
#[derive(Clone, Copy)]
pub struct DrawnView<'a> {
    pub xs: &'a [f32],
    pub ys: &'a [f32],
    pub es: &'a [f32],
    pub steps: &'a [bool],
}

impl DrawnView<'_> {
    // The segment that holds `x`.
    pub fn segment(self, x: f32) -> Segment
        requires { EachHasAll self }
        ensures { result ≡ segment_of self.entry x }
    {
        if self.xs.is_empty() {
            return Segment::hold(extrema::neg_infinity(), extrema::infinity(), 0.0);
        }
        self.segment_at(points::partition_point(self.xs, x))
    }

    // The segment after the first `i` of the points.
    fn segment_at(self, i: usize) -> Segment
        requires { EachHasAll self × (0 < length self.xs.now) × (i ≤ length self.xs.now) }
        ensures { result ≡ segment_after self.entry i }
    {
        if i == 0 {
            return Segment::hold(extrema::neg_infinity(), self.xs[0], self.ys[0]);
        }
        let k = i - 1;
        let x0 = self.xs[k];
        let y0 = self.ys[k];
        if i == self.xs.len() {
            return Segment::hold(x0, extrema::infinity(), y0);
        }
        let x1 = self.xs[i];
        if self.steps[k] {
            return Segment::hold(x0, x1, y0);
        }
        Segment::between(x0, x1, y0, self.ys[i], self.es[k])
    }
}
