// Writes values of drawn shapes and XY paths, as the bits of f32. The file `stdout` has what they must be: the Rust source wrote it,
// by `harness/run vectors curves > crates/curve_vectors/stdout`.
//
// A curve is a line with its name, a line with its first eight strengths or legs, and a line for each position: the position, the value
// there, and the value with the points moved by the buses. Our strengths and legs are handed to the Rust source.
#![tactic(auto)]

ghost use Rattle.std.specs.Prelude.{◌≤◌};

use path::{Path, PathPoint};
use path_segments::{PathView, Xy};
use points::PointMod;
use shape::{Point, Shape};
use shape_segments::DrawnView;
use std::io;
use std::io::{BufWriter, Write};

// Where shapes and paths are evaluated. 5e-41 lies inside the gap of `tiny_gap`.
const AT: [f32; 13] = [
    -1.0, -0.0, 0.0, 5.0e-41, 0.1, 0.25, 0.3, 0.5, 0.7, 0.75, 0.9, 1.0, 2.0,
];

const BUSES: [f32; 16] = [
    1.0, -1.0, 0.5, 0.25, 0.1, -0.3, 3.0e38, 0.0, -0.0, 2.0, 0.7, -0.6, 0.01, 1.0e-30, 100.0, -0.5,
];

// One line: the bits of floats, 7fc00000 for a NaN, each with a blank behind it.
fn show_floats<W: Write>(to: &mut W, list: &[f32]) -> io::Result<()> {
    for x in list {
        write!(to, "{:08x} ", floatbits::bits_of_f32(*x))?;
    }
    writeln!(to)
}

fn bus(bus: u8, depth: f32) -> Option<PointMod> {
    Some(PointMod { bus, depth })
}

// ---- shapes

// The value at `x` with the points moved by the buses.
fn moved_value(s: Shape, x: f32) -> f32
    requires { s.len ≤ 64 }
{
    let at = s.modulated(&BUSES);
    let curves = s.curves();
    let drawn = DrawnView {
        xs: &at.xs[..s.len],
        ys: &at.ys,
        es: &curves.es,
        steps: &curves.steps,
    };
    drawn.segment(x).eval(x)
}

fn show_value<W: Write>(to: &mut W, s: Shape, x: f32) -> io::Result<()>
    requires { s.len ≤ 64 }
{
    show_floats(to, &[x, s.value(x), moved_value(s, x)])
}

fn show_values<W: Write>(to: &mut W, s: Shape) -> io::Result<()>
    requires { s.len ≤ 64 }
{
    for x in AT {
        show_value(to, s, x)?;
    }
    Ok(())
}

fn show_shape<W: Write>(to: &mut W, points: &[Point]) -> io::Result<()> {
    let s = Shape::new(points);
    show_floats(to, &s.curves().es[..8])?;
    show_values(to, s)
}

// A point with the segment after it bent by `curve`.
fn bent(x: f32, y: f32, curve: f32) -> Point {
    Point::new(x, y).curve(curve)
}

// A point with a step after it.
fn stepped(x: f32, y: f32) -> Point {
    Point::new(x, y).step()
}

// `p` with modulation of both coordinates.
fn moving(p: Point, x_bus: u8, x_depth: f32, y_bus: u8, y_depth: f32) -> Point {
    Point {
        x_mod: bus(x_bus, x_depth),
        y_mod: bus(y_bus, y_depth),
        ..p
    }
}

fn default_shape<W: Write>(to: &mut W) -> io::Result<()> {
    writeln!(to, "default shape")?;
    show_values(to, Shape::default())
}

fn empty_shape<W: Write>(to: &mut W) -> io::Result<()> {
    writeln!(to, "empty shape")?;
    show_shape(to, &[])
}

fn one_point<W: Write>(to: &mut W) -> io::Result<()> {
    writeln!(to, "one point")?;
    let points = [bent(0.25, 0.75, 0.5)];
    show_shape(to, &points)
}

// At an x of several points the last of them starts the segment. Each has a bend of its own.
fn equal_x<W: Write>(to: &mut W) -> io::Result<()> {
    writeln!(to, "equal x")?;
    let points = [
        bent(0.0, 0.9, 1.0),
        bent(0.0, 0.2, 0.25),
        stepped(0.5, 0.25),
        bent(0.5, 1.0, -0.25),
        bent(0.5, 0.75, 0.5),
        bent(1.0, 0.5, -1.0),
        bent(1.0, 0.1, -0.5),
    ];
    show_shape(to, &points)
}

fn steps<W: Write>(to: &mut W) -> io::Result<()> {
    writeln!(to, "steps")?;
    let points = [
        stepped(0.1, 0.1),
        bent(0.25, 0.6, 0.5).step(),
        Point::new(0.75, 0.9),
        stepped(0.9, 0.0),
    ];
    show_shape(to, &points)
}

fn bends<W: Write>(to: &mut W) -> io::Result<()> {
    writeln!(to, "bends")?;
    let points = [
        bent(0.0, 0.0, 0.25),
        bent(0.2, 1.0, -0.25),
        bent(0.28, 0.3, 0.5),
        bent(0.4, 0.8, -0.5),
        bent(0.6, 0.1, 1.0),
        bent(0.72, 0.7, -1.0),
        bent(0.8, 0.05, 0.2998046875),
        Point::new(1.0, 1.0),
    ];
    show_shape(to, &points)
}

// Multiples of 1/1024 within an octave: the 22nd, 24th and 165th, at which the Rust's exp2 has another last bit, and those next to the ends.
fn fine_bends<W: Write>(to: &mut W) -> io::Result<()> {
    writeln!(to, "fine bends")?;
    let points = [
        bent(0.0, 0.0, 0.0234375),
        bent(0.2, 1.0, 0.4111328125),
        bent(0.28, 0.3, 0.521484375),
        bent(0.4, 0.8, -0.8388671875),
        bent(0.6, 0.1, 0.9990234375),
        bent(0.72, 0.7, -0.9990234375),
        bent(0.8, 0.05, -0.4765625),
        bent(1.0, 1.0, 0.0009765625),
    ];
    show_shape(to, &points)
}

// Out of range and out of order: x of 0, 0.5 and 1 come about twice or more by clamping and sorting.
fn unsorted<W: Write>(to: &mut W) -> io::Result<()> {
    writeln!(to, "unsorted")?;
    let points = [
        bent(1.5, 0.3, 0.25),
        bent(0.5, 2.0, 3.0),
        stepped(-0.5, 0.6),
        bent(0.25, -1.0, -0.25),
        bent(0.5, 0.4, 0.5),
        bent(-2.0, 0.8, -7.0),
        bent(1.0, 0.9, -0.5),
        stepped(0.8, 0.2),
    ];
    show_shape(to, &points)
}

fn negative_zeros<W: Write>(to: &mut W) -> io::Result<()> {
    writeln!(to, "negative zeros")?;
    let points = [
        Point::new(0.0, -0.0),
        bent(-0.0, -0.0, -0.0),
        stepped(0.5, -0.0),
        Point::new(0.75, -0.0),
        Point::new(1.0, -0.0),
    ];
    show_shape(to, &points)
}

// A gap of less than 2^-128: the reciprocal of its width is infinite.
fn tiny_gap<W: Write>(to: &mut W) -> io::Result<()> {
    writeln!(to, "tiny gap")?;
    let points = [
        Point::new(0.0, 0.25),
        Point::new(1.0e-40, 0.75),
        Point::new(1.0, 0.5),
    ];
    show_shape(to, &points)
}

// Points pushed beyond their neighbours and the ends, by products that overflow, and by buses that are not there.
fn moving_points<W: Write>(to: &mut W) -> io::Result<()> {
    writeln!(to, "moving points")?;
    let points = [
        moving(bent(0.0, 0.5, 0.5), 4, 0.5, 5, 1.0),
        moving(stepped(0.2, 0.1), 2, 0.3, 13, 1.0),
        moving(bent(0.4, 0.9, -0.5), 1, 0.3, 6, -10.0),
        moving(bent(0.5, 0.2, 1.0), 16, 5.0, 255, -5.0),
        moving(stepped(0.7, -0.0), 8, 1.0, 7, -1.0),
        stepped(0.8, -0.0),
        moving(bent(0.9, 0.6, 0.25), 6, 10.0, 15, 0.4),
        moving(stepped(1.0, 0.3), 11, 0.2, 9, 0.2),
    ];
    show_shape(to, &points)
}

// 70 points, from right to left.
fn leftward() -> [Point; 70] {
    let mut all = [Point::new(0.0, 0.0); 70];
    let mut x = 1.0;
    let mut y = 0.5;
    for p in &mut all {
        *p = Point::new(x, y);
        x -= 0.015625;
        y = 1.0 - 0.75 * y;
    }
    all
}

// The first 64 of 70 points.
fn many_points<W: Write>(to: &mut W) -> io::Result<()> {
    writeln!(to, "many points")?;
    show_shape(to, &leftward())
}

// ---- paths

// The outputs at `t` with the points moved by the buses.
fn moved_outputs(p: Path, t: f32) -> Xy
    requires { p.len ≤ 64 }
{
    let at = p.modulated(&BUSES);
    let path = PathView {
        xs: &at.xs[..p.len],
        ys: &at.ys,
        bends: &p.bends(),
        times: &p.times,
        closed: p.closed,
    };
    path.segment(t).eval(t)
}

fn show_outputs<W: Write>(to: &mut W, p: Path, t: f32) -> io::Result<()>
    requires { p.len ≤ 64 }
{
    let drawn = p.value(t);
    let moved = moved_outputs(p, t);
    show_floats(to, &[t, drawn.x, drawn.y, moved.x, moved.y])
}

fn show_travel<W: Write>(to: &mut W, p: Path) -> io::Result<()>
    requires { p.len ≤ 64 }
{
    for t in AT {
        show_outputs(to, p, t)?;
    }
    Ok(())
}

fn show_path<W: Write>(to: &mut W, points: &[PathPoint], closed: bool) -> io::Result<()> {
    let p = Path::new(points, closed);
    show_floats(to, &p.legs()[..8])?;
    show_travel(to, p)
}

// A point after which the segment bows by `bend`.
fn bowed(x: f32, y: f32, bend: f32) -> PathPoint {
    PathPoint {
        x,
        y,
        bend,
        x_mod: None,
        y_mod: None,
    }
}

// `p` with modulation of both coordinates.
fn moving_along(p: PathPoint, x_bus: u8, x_depth: f32, y_bus: u8, y_depth: f32) -> PathPoint {
    PathPoint {
        x_mod: bus(x_bus, x_depth),
        y_mod: bus(y_bus, y_depth),
        ..p
    }
}

fn default_path<W: Write>(to: &mut W) -> io::Result<()> {
    writeln!(to, "default path")?;
    show_travel(to, Path::default())
}

fn empty_path<W: Write>(to: &mut W) -> io::Result<()> {
    writeln!(to, "empty path")?;
    show_path(to, &[], true)
}

fn one_path_point<W: Write>(to: &mut W) -> io::Result<()> {
    writeln!(to, "path of one point")?;
    let points = [moving_along(bowed(0.25, 0.75, 1.0), 2, 1.0, 3, -1.0)];
    show_path(to, &points, true)
}

// Three points with legs of 1, 1/2 and, where it is closed, the way back.
fn bent_path<W: Write>(to: &mut W, closed: bool) -> io::Result<()> {
    let points = [
        bowed(1.0, 1.0, 0.5),
        bowed(0.0, 1.0, -1.0),
        bowed(0.0, 0.5, 0.25),
    ];
    show_path(to, &points, closed)
}

fn open_path<W: Write>(to: &mut W) -> io::Result<()> {
    writeln!(to, "open path")?;
    bent_path(to, false)
}

fn closed_path<W: Write>(to: &mut W) -> io::Result<()> {
    writeln!(to, "closed path")?;
    bent_path(to, true)
}

// Out of range points are clamped to the edges of the paper and keep their order; the second leg has no length.
fn clamped_path<W: Write>(to: &mut W) -> io::Result<()> {
    writeln!(to, "clamped path")?;
    let points = [
        bowed(2.0, -0.5, 3.0),
        bowed(0.25, 0.40625, 0.0),
        bowed(0.25, 0.40625, 1.0),
        bowed(-0.0, 7.0, -0.3),
    ];
    show_path(to, &points, true)
}

// With no length every segment takes as long as the others.
fn path_of_no_length<W: Write>(to: &mut W) -> io::Result<()> {
    writeln!(to, "path of no length")?;
    let points = [
        moving_along(bowed(0.5, 0.5, 0.0), 0, 0.25, 7, 1.0),
        moving_along(bowed(0.5, 0.5, 1.0), 8, 1.0, 1, 0.5),
        moving_along(bowed(0.5, 0.5, -0.5), 4, -5.0, 4, 1.0),
    ];
    show_path(to, &points, true)
}

// The buses move the points and not the times. Two points are reached at 0.75, of which the last starts the segment.
fn moving_path<W: Write>(to: &mut W) -> io::Result<()> {
    writeln!(to, "moving path")?;
    let points = [
        moving_along(bowed(0.0, 0.0, 0.5), 9, 0.1, 6, -10.0),
        moving_along(bowed(0.375, 0.5, -0.5), 5, 0.5, 6, 10.0),
        moving_along(bowed(0.375, 1.0, 0.75), 16, 1.0, 255, -1.0),
        moving_along(bowed(0.375, 1.0, -0.25), 4, 2.0, 15, 0.5),
        moving_along(bowed(-0.0, 1.0, 0.1), 7, -1.0, 8, 1.0),
    ];
    show_path(to, &points, false)
}

// Legs of 2,897 and 2,898 squares, whose last digit a float formula gets wrong, of 1 square and of its diagonal, and between far corners.
fn fine_path<W: Write>(to: &mut W) -> io::Result<()> {
    writeln!(to, "fine path")?;
    let points = [
        bowed(-0.0, 0.0, 0.0),
        bowed(0.707275390625, 0.70751953125, 0.5),
        bowed(0.70751953125, 0.70751953125, 0.0),
        bowed(0.707763671875, 0.707763671875, -0.25),
        bowed(1.0, 0.999755859375, 0.0),
        bowed(0.000244140625, 1.0, 1.0),
        bowed(0.78369140625, 0.004150390625, -1.0),
    ];
    show_path(to, &points, true)
}

// 70 points, from right to left, each leg one square higher than the one before.
fn rising() -> [PathPoint; 70] {
    let mut all = [PathPoint::new(0.0, 0.0); 70];
    let mut x = 1.0;
    let mut y = 0.0;
    let mut step = 0.0;
    for p in &mut all {
        *p = PathPoint::new(x, y);
        x -= 0.015625;
        step += 0.000244140625;
        y += step;
    }
    all
}

// The first 64 of 70 points; the last leg goes from the 64th back to the first.
fn many_path_points<W: Write>(to: &mut W) -> io::Result<()> {
    writeln!(to, "many path points")?;
    show_path(to, &rising(), true)
}

fn main(rt: HostRuntime) -> io::Result<()> {
    let mut to = BufWriter::new(rt.alloc(), io::writer(&rt))?;
    default_shape(&mut to)?;
    empty_shape(&mut to)?;
    one_point(&mut to)?;
    equal_x(&mut to)?;
    steps(&mut to)?;
    bends(&mut to)?;
    fine_bends(&mut to)?;
    unsorted(&mut to)?;
    negative_zeros(&mut to)?;
    tiny_gap(&mut to)?;
    moving_points(&mut to)?;
    many_points(&mut to)?;
    default_path(&mut to)?;
    empty_path(&mut to)?;
    one_path_point(&mut to)?;
    open_path(&mut to)?;
    closed_path(&mut to)?;
    clamped_path(&mut to)?;
    path_of_no_length(&mut to)?;
    moving_path(&mut to)?;
    fine_path(&mut to)?;
    many_path_points(&mut to)?;
    to.flush()
}
