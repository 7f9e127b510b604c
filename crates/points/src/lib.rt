// What the drawn shape and the XY path share of lfo/shape.rs: how many points are kept, where they are, how far a bus moves a
// coordinate, and the search among ascending floats.
#![tactic(auto)]

ghost use Rattle.std.specs.Prelude.{◌≡◌, ℕ, ◌≤◌, ◌<◌, min, length};
ghost use Rattle.listlaws.specs.Tables.{tabulate, padded};
ghost use Rattle.points.specs.Arrays.{partition_point};
ghost use Rattle.points.specs.Modulation.{bus_value, offset_of, moved_of, placed_of};

// The most points a shape or a path holds.
pub const MAX_POINTS: usize = 64;

// The point-modulation buses.
pub const POINT_BUSES: usize = 16;

// A point-modulation input on one coordinate of a point: the coordinate moves by `depth` times the value of bus `bus`.
#[derive(Clone, Copy)]
pub struct PointMod {
    pub bus: u8,
    pub depth: f32,
}

// Where the points of a shape or a path are: the first as many as there are points; the rest is 0.
#[derive(Clone, Copy)]
pub struct Coordinates {
    pub xs: [f32; MAX_POINTS],
    pub ys: [f32; MAX_POINTS],
}

// How many of `count` points are kept.
pub fn kept(count: usize) -> usize
    ensures { result ≡ min count 64 }
{
    count.min(MAX_POINTS)
}

// An array that begins with `at(0)`, .. `at(n - 1)`, and holds `rest` after them.
pub fn filled<T: Copy, F: Fn(usize) -> T>(n: usize, rest: T, at: F) -> [T; MAX_POINTS]
    requires fits { n ≤ 64 }
    requires callable { (i : ℕ) → i < n → F.pre at i }
    ensures { (f : ℕ → T) → ((i : ℕ) (r : T) → i < n → F.post at i r → r ≡ f i) → result ≡ padded 64 rest (tabulate f n) }
{
    let mut out = [rest; MAX_POINTS];
    for i in 0..n {
        out[i] = at(i);
    }
    out
}

// The value of bus `bus`, and 0 where there is no such bus.
fn bus_value(buses: &[f32; POINT_BUSES], bus: u8) -> f32
    ensures { result ≡ bus_value buses.now bus }
{
    let at = bus as usize;
    if at < POINT_BUSES { buses[at] } else { 0.0 }
}

// How far `m` moves a coordinate, given the bus values. Of a bus that is not there it is 0 × depth, a zero of either sign.
pub fn offset(m: Option<PointMod>, buses: &[f32; POINT_BUSES]) -> f32
    ensures { result ≡ offset_of m buses.now }
{
    match m {
        Some(m) => bus_value(buses, m.bus) * m.depth,
        None => 0.0,
    }
}

// A coordinate moved by its bus.
pub fn moved(at: f32, m: Option<PointMod>, buses: &[f32; POINT_BUSES]) -> f32
    ensures { result ≡ moved_of at m buses.now }
{
    at + offset(m, buses)
}

// A coordinate moved by its bus, inside the unit square.
pub fn placed(at: f32, m: Option<PointMod>, buses: &[f32; POINT_BUSES]) -> f32
    ensures { result ≡ placed_of at m buses.now }
{
    extrema::clamp(moved(at, m, buses), 0.0, 1.0)
}

// How many of `xs` stand up to the last one at or before `x`. On ascending `xs` this is Rust's `partition_point(|p| p <= x)`,
// for which document 01 asks for a loop from the last place down, as `rposition` is.
pub fn partition_point(xs: &[f32], x: f32) -> usize
    ensures { (result ≡ partition_point xs.now (length xs.now) x) × (result ≤ length xs.now) }
{
    match xs.iter().rposition(|p| *p <= x) {
        Some(i) => i + 1,
        None => 0,
    }
}
