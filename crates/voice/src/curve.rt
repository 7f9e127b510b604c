// The curve that frames read, and the segments that a search of it finds.
ghost use Rattle.std.specs.Prelude.{◌≡◌, ◌≤◌};
ghost use Rattle.voice.specs.Curve.{curve_of, drawn_at, path_at, HoldsDrawn, HoldsPath};

use path_segments::{MAX_TIMES, PathSegment, PathView};
use points::MAX_POINTS;
use shape_segments::{DrawnView, Segment};

// A curve whose arrays are lent: for a shape `es` are the strengths and `from` is the x of its loopback point, for a path `es` are the bends.
// They are arrays with the count beside, and no slices of `n`: the curve of the definitions is all of a page's 64 places.
#[derive(Clone, Copy)]
pub struct CurveView<'a> {
    pub xs: &'a [f32; MAX_POINTS],
    pub ys: &'a [f32; MAX_POINTS],
    pub es: &'a [f32; MAX_POINTS],
    pub steps: &'a [bool; MAX_POINTS],
    pub n: usize,
    pub times: &'a [f32; MAX_TIMES],
    pub closed: bool,
    pub from: Option<f64>,
}

impl CurveView<'_> {
    // The segment of the shape at p: the kept one where it holds p.
    pub(crate) fn drawn_at(self, before: Segment, p: f32) -> Segment
        requires { (self.n ≤ 64) × HoldsDrawn (drawn_at (curve_of self)) before }
        ensures { result ≡ drawn_at (curve_of self.entry) p }
    {
        if before.contains(p) {
            return before;
        }
        let CurveView {
            xs,
            ys,
            es,
            steps,
            n,
            ..
        } = self;
        let drawn = DrawnView {
            xs: &xs[..n],
            ys,
            es,
            steps,
        };
        drawn.segment(p)
    }

    // The segment of the path at p: the kept one where it holds p.
    pub(crate) fn path_at(self, before: PathSegment, p: f32) -> PathSegment
        requires { (self.n ≤ 64) × HoldsPath (path_at (curve_of self)) before }
        ensures { result ≡ path_at (curve_of self.entry) p }
    {
        if before.contains(p) {
            return before;
        }
        let CurveView {
            xs,
            ys,
            es,
            n,
            times,
            closed,
            ..
        } = self;
        let path = PathView {
            xs: &xs[..n],
            ys,
            bends: es,
            times,
            closed,
        };
        path.segment(p)
    }
}
