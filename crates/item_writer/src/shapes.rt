// The points of a shape as they are kept, and its loopback.
ghost use Rattle.std.specs.Prelude.{◌≡◌};
ghost use Rattle.record.specs.Kept.{codes_of_mod, codes_of_point, kept_shape};
ghost use Rattle.record.specs.Writing.{modulation_bytes, point_bytes, loopback_bytes, shape_bytes};

use super::numbers::{Put, put_if, put_row};
use codes::{LoopbackCodes, ModCodes, ShapeCodes};
use points::PointMod;
use shape::Point;

fn mod_codes(m: Option<PointMod>) -> ModCodes
    ensures { result ≡ codes_of_mod m }
{
    match m {
        None => ModCodes {
            code: 0,
            bus: 0,
            depth: 0.0,
        },
        Some(m) => ModCodes {
            code: 1,
            bus: m.bus,
            depth: m.depth,
        },
    }
}

impl Put for ModCodes {
    ghost bytes = { modulation_bytes };

    ghost most = { 3 };

    fn put(self, out: &mut [u64], at: usize) -> usize {
        let code = self.code.put(out, at);
        let bus = put_if(out, code, self.code == 1, self.bus as u64);
        put_if(out, bus, self.code == 1, self.depth)
    }
}

impl Put for Option<PointMod> {
    ghost bytes = { λ m. modulation_bytes (codes_of_mod m) };

    ghost most = { 3 };

    fn put(self, out: &mut [u64], at: usize) -> usize {
        mod_codes(self).put(out, at)
    }
}

impl Put for Point {
    ghost bytes = { λ p. point_bytes (codes_of_point p) };

    ghost most = { 10 };

    fn put(self, out: &mut [u64], at: usize) -> usize {
        let x = self.x.put(out, at);
        let y = self.y.put(out, x);
        let curve = self.curve.put(out, y);
        let step = u64::from(self.step).put(out, curve);
        let x_mod = self.x_mod.put(out, step);
        self.y_mod.put(out, x_mod)
    }
}

impl Put for LoopbackCodes {
    ghost bytes = { loopback_bytes };

    ghost most = { 2 };

    fn put(self, out: &mut [u64], at: usize) -> usize {
        let code = self.code.put(out, at);
        put_if(out, code, self.code == 1, self.index)
    }
}

// Its points as the player keeps them.
impl Put for ShapeCodes {
    ghost bytes = { λ c. shape_bytes (kept_shape c) };

    ghost most = { 643 };

    fn put(self, out: &mut [u64], at: usize) -> usize {
        let shape = curves::shape_of(self);
        let count = (shape.len as u64).put(out, at);
        let points = put_row(out, count, &shape.points[..shape.len]);
        self.loopback.put(out, points)
    }
}
