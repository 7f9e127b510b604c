// Points of a drawn shape: clamped, and sorted by x.
ghost use Rattle.std.specs.Prelude.{◌≡◌, ◌≤◌, ◌<◌, length};
ghost use Rattle.shape.specs.Points.{new_point, bent_point, stepped_point, clamped_point, inserted_at, sorted_array};

use points::{MAX_POINTS, PointMod};

// One point of a drawn shape, and the segment that starts at it.
#[derive(Clone, Copy)]
pub struct Point {
    // Where in the cycle, 0 to 1.
    pub x: f32,
    // The value there, 0 (bottom) to 1 (top).
    pub y: f32,
    // The bend of the segment from this point to the next, -1 to 1; 0 is a straight line, and above 0 it starts slowly and
    // finishes fast.
    pub curve: f32,
    // The segment from this point holds its value and jumps at the next point.
    pub step: bool,
    // Modulation of `x` and of `y`.
    pub x_mod: Option<PointMod>,
    pub y_mod: Option<PointMod>,
}

impl Point {
    // A point at `x`, `y` with a straight segment after it.
    pub fn new(x: f32, y: f32) -> Self
        ensures { result ≡ new_point x y }
    {
        Self {
            x,
            y,
            curve: 0.0,
            step: false,
            x_mod: None,
            y_mod: None,
        }
    }

    // The same point with the segment after it bent by `curve`.
    pub fn curve(mut self, curve: f32) -> Self
        ensures { result ≡ bent_point self curve }
    {
        self.curve = curve;
        self
    }

    // The same point with a step after it.
    pub fn step(mut self) -> Self
        ensures { result ≡ stepped_point self }
    {
        self.step = true;
        self
    }

    // The point with its place in the unit square and its bend in -1 to 1.
    fn clamped(mut self) -> Self
        ensures { result ≡ clamped_point self }
    {
        self.x = extrema::clamp(self.x, 0.0, 1.0);
        self.y = extrema::clamp(self.y, 0.0, 1.0);
        self.curve = extrema::clamp(self.curve, -1.0, 1.0);
        self
    }
}

// Puts `p` among the first `n` points: after those at or before it. Each later one moves up a place. A slice of those points has
// no room for one more, and of a slice with room its last place would have to be left out: so the count stands beside the array.
fn insert(points: &mut [Point; MAX_POINTS], n: usize, p: Point)
    requires { n < 64 }
    ensures { points.new ≡ inserted_at points.old n p }
{
    for j in (0..n).rev() {
        let before = points[j];
        if before.x > p.x {
            points[j + 1] = before;
        } else {
            points[j + 1] = p;
            return;
        }
    }
    points[0] = p;
}

// The points clamped and sorted by x; equal x keep their order. Blank points follow. The library's stable sort needs a heap.
pub fn sort(points: &[Point]) -> [Point; MAX_POINTS]
    requires { length points.now ≤ 64 }
    ensures { result ≡ sorted_array points.now (length points.now) }
{
    let mut sorted = [Point::new(0.0, 0.0); MAX_POINTS];
    for (n, p) in points.iter().enumerate() {
        insert(&mut sorted, n, p.clamped());
    }
    sorted
}
