// The shape and the path that a call hands in as codes and numbers. They are made by functions and not by `From`, since neither the codes nor the
// curves are types of this crate.
#![tactic(auto)]

ghost use Rattle.std.specs.Prelude.{◌≡◌, ◌≤◌};
ghost use Rattle.curves.specs.Given.{is_yes, mod_of, point_of, loopback_of, given_shape, path_point_of, given_path};

use codes::{LoopbackCodes, ModCodes, PathCodes, PathPointCodes, PointCodes, ShapeCodes};
use path::{Path, PathPoint};
use points::PointMod;
use shape::{Point, Shape};

// Whether a yes or no is a yes.
fn is_yes(code: u64) -> bool
    ensures { result ≡ is_yes code }
{
    code == 1
}

fn mod_of(c: ModCodes) -> Option<PointMod>
    ensures { result ≡ mod_of c }
{
    if c.code == 1 {
        Some(PointMod {
            bus: c.bus,
            depth: c.depth,
        })
    } else {
        None
    }
}

// ---- a shape

fn point_of(c: PointCodes) -> Point
    ensures { result ≡ point_of c }
{
    Point {
        x: c.x,
        y: c.y,
        curve: c.curve,
        step: is_yes(c.step),
        x_mod: mod_of(c.x_mod),
        y_mod: mod_of(c.y_mod),
    }
}

fn loopback_of(c: LoopbackCodes) -> Option<usize>
    ensures { result ≡ loopback_of c }
{
    if c.code == 1 {
        Some(c.index as usize)
    } else {
        None
    }
}

pub fn shape_of(c: ShapeCodes) -> Shape
    ensures { (result ≡ given_shape c) × (result.len ≤ 64) }
{
    let n = points::kept(c.count);
    let given = points::filled(n, Point::new(0.0, 0.0), |i| point_of(c.points[i]));
    Shape::new(&given[..n]).set_loopback(loopback_of(c.loopback))
}

// ---- a path

fn path_point_of(c: PathPointCodes) -> PathPoint
    ensures { result ≡ path_point_of c }
{
    PathPoint {
        x: c.x,
        y: c.y,
        bend: c.bend,
        x_mod: mod_of(c.x_mod),
        y_mod: mod_of(c.y_mod),
    }
}

pub fn path_of(c: PathCodes) -> Path
    ensures { (result ≡ given_path c) × (result.len ≤ 64) }
{
    let n = points::kept(c.count);
    let given = points::filled(n, PathPoint::new(0.0, 0.0), |i| path_point_of(c.points[i]));
    Path::new(&given[..n], is_yes(c.closed))
}
