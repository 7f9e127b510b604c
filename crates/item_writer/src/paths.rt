// The points of a path as they are kept.
ghost use Rattle.record.specs.Kept.{codes_of_path_point, kept_path};
ghost use Rattle.record.specs.Writing.{path_point_bytes, path_bytes};

use super::numbers::{Put, put_row};
use codes::PathCodes;
use path::PathPoint;

impl Put for PathPoint {
    ghost bytes = { λ p. path_point_bytes (codes_of_path_point p) };

    ghost most = { 9 };

    fn put(self, out: &mut [u64], at: usize) -> usize {
        let x = self.x.put(out, at);
        let y = self.y.put(out, x);
        let bend = self.bend.put(out, y);
        let x_mod = self.x_mod.put(out, bend);
        self.y_mod.put(out, x_mod)
    }
}

// Its points as the player keeps them.
impl Put for PathCodes {
    ghost bytes = { λ c. path_bytes (kept_path c) };

    ghost most = { 578 };

    fn put(self, out: &mut [u64], at: usize) -> usize {
        let path = curves::path_of(self);
        let count = (path.len as u64).put(out, at);
        let closed = self.closed.put(out, count);
        put_row(out, closed, &path.points[..path.len])
    }
}
