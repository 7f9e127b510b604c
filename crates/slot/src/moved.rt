// The points as frames read them, moved by the buses: `begin` of lfo/mod.rs, of its points, and the loopback point of `stage`.
ghost use Rattle.std.specs.Prelude.{◌≡◌, ◌≤◌};
ghost use Rattle.slot.specs.Moved.{shape_lists, path_lists, lists_of, points_of, LoopbackIn, loop_of};

use path::Path;
use points::{MAX_POINTS, POINT_BUSES};
use settings::LfoType;
use shape::Shape;

// A shape's points with the strengths and the steps of its segments, or a path's with their bends.
#[derive(Clone, Copy)]
pub struct Lists {
    pub xs: [f32; MAX_POINTS],
    pub ys: [f32; MAX_POINTS],
    pub es: [f32; MAX_POINTS],
    pub steps: [bool; MAX_POINTS],
}

// A literal here takes each array from a variable: from a field or a call it has no generated proof.
impl Lists {
    #[tactic(auto, unfolding(crate::specs::Moved::shape_lists))]
    fn of_shape(shape: Shape, buses: &[f32; POINT_BUSES]) -> Self
        requires { shape.len ≤ 64 }
        ensures { result ≡ shape_lists shape buses.now }
    {
        let at = shape.modulated(buses);
        let curves = shape.curves();
        let xs = at.xs;
        let ys = at.ys;
        let es = curves.es;
        let steps = curves.steps;
        Lists { xs, ys, es, steps }
    }

    #[tactic(auto, unfolding(crate::specs::Moved::path_lists))]
    fn of_path(path: Path, buses: &[f32; POINT_BUSES]) -> Self
        requires { path.len ≤ 64 }
        ensures { result ≡ path_lists path buses.now }
    {
        let at = path.modulated(buses);
        let es = path.bends();
        let xs = at.xs;
        let ys = at.ys;
        let steps = [false; MAX_POINTS];
        Lists { xs, ys, es, steps }
    }

    // Of a type: a path's for Path, and for every other the shape's.
    #[tactic(auto, unfolding(crate::specs::Moved::lists_of))]
    pub fn of(kind: LfoType, shape: Shape, path: Path, buses: &[f32; POINT_BUSES]) -> Self
        requires { (shape.len ≤ 64) × (path.len ≤ 64) }
        ensures { result ≡ lists_of kind shape path buses.now }
    {
        if voice::is_path(kind) {
            return Lists::of_path(path, buses);
        }
        Lists::of_shape(shape, buses)
    }
}

// How many points a type reads.
pub fn point_count(kind: LfoType, shape: usize, path: usize) -> usize
    ensures { result ≡ points_of kind shape path }
{
    if voice::is_path(kind) {
        return path;
    }
    shape
}

// Where a drawn shape's loopback point is, as moved; another type has none.
#[tactic(auto, unfolding(crate::specs::Moved::loop_of))]
pub fn loop_point(kind: LfoType, loopback: Option<usize>, xs: &[f32; MAX_POINTS]) -> Option<f64>
    requires { LoopbackIn loopback 64 }
    ensures { result ≡ loop_of kind loopback xs.now }
{
    match kind {
        LfoType::Drawn => {
            let i = loopback?;
            Some(std::num::f32_to_f64_with_nan(xs[i]))
        }
        LfoType::Path => None,
        LfoType::Lorenz => None,
        LfoType::Rossler => None,
        LfoType::SampleAndHold => None,
    }
}
