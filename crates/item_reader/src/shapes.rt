// Modulations and shapes.
ghost use Rattle.std.specs.Prelude.{◌≡◌, ◌&&◌, ◌≤◌};
ghost use Rattle.std.specs.Float.Ieee.{le};
ghost use Rattle.listlaws.specs.Tables.{padded};
ghost use Rattle.codes.specs.Blanks.{blank_point};
ghost use Rattle.fields.specs.Parser.{◌then◌, done, row};
ghost use Rattle.fields.specs.Fields.{parsed};
ghost use Rattle.record.specs.Reading.{modulation, in_unit, in_bend, last_x, point, loopback, shape};

use codes::{LoopbackCodes, ModCodes, PointCodes, ShapeCodes, blank_points};
use fields::{Fault, read_below, read_byte, read_f32_that, read_if, read_number, read_row};
use points::MAX_POINTS;

#[tactic(auto, unfolding(record::specs::Reading::modulation, fields::specs::Parser::after))]
pub fn read_modulation(s: &[u8], at: usize) -> Result<(ModCodes, usize), Fault>
    ensures { parsed result ≡ modulation s.now at }
{
    let (code, at) = read_below(s, at, 2)?;
    let (bus, at) = read_if(at, code == 1, 0, |at| read_byte(s, at))?;
    let (depth, at) = read_if(
        at,
        code == 1,
        0.0,
        |at| read_f32_that(s, at, |x| questions::is_finite_f32(x)),
    )?;
    Ok((ModCodes { code, bus, depth }, at))
}

fn x_kept(before: f32, x: f32) -> bool
    ensures { result ≡ (in_unit x && le before x) }
{
    in_unit(x) & (before <= x)
}

fn in_unit(x: f32) -> bool
    ensures { result ≡ in_unit x }
{
    (0.0 <= x) & (x <= 1.0)
}

pub fn in_bend(x: f32) -> bool
    ensures { result ≡ in_bend x }
{
    (-1.0 <= x) & (x <= 1.0)
}

// The x of the last of some points, from which the next one goes on; 0 where there is none.
fn last_x(points: &[PointCodes]) -> f32
    ensures { result ≡ last_x points.now }
{
    match points.last() {
        Some(last) => last.x,
        None => 0.0,
    }
}

// A point after one with the x `before`.
#[tactic(auto, unfolding(record::specs::Reading::point, fields::specs::Parser::after))]
fn read_point(s: &[u8], at: usize, before: f32) -> Result<(PointCodes, usize), Fault>
    ensures { parsed result ≡ point before s.now at }
{
    let (x, at) = read_f32_that(s, at, |x| x_kept(before, x))?;
    let (y, at) = read_f32_that(s, at, in_unit)?;
    let (curve, at) = read_f32_that(s, at, in_bend)?;
    let (step, at) = read_below(s, at, 2)?;
    let (x_mod, at) = read_modulation(s, at)?;
    let (y_mod, at) = read_modulation(s, at)?;
    let point = PointCodes {
        x,
        y,
        curve,
        step,
        x_mod,
        y_mod,
    };
    Ok((point, at))
}

// `count` points, in the front of a blank array of fixed size (no heap).
fn read_points(
    s: &[u8],
    at: usize,
    count: usize,
) -> Result<([PointCodes; MAX_POINTS], usize), Fault>
    requires { count ≤ 64 }
    ensures { parsed result ≡ (row (λ l. point (last_x l)) count then λ l. done (padded 64 blank_point l)) s.now at }
{
    read_row(at, count, blank_points(), |before, at| {
        read_point(s, at, last_x(before))
    })
}

#[tactic(auto, unfolding(record::specs::Reading::loopback, fields::specs::Parser::after))]
fn read_loopback(s: &[u8], at: usize) -> Result<(LoopbackCodes, usize), Fault>
    ensures { parsed result ≡ loopback s.now at }
{
    let (code, at) = read_below(s, at, 2)?;
    let (index, at) = read_if(at, code == 1, 0, |at| read_number(s, at))?;
    Ok((LoopbackCodes { code, index }, at))
}

#[tactic(auto, unfolding(record::specs::Reading::shape, fields::specs::Parser::after))]
pub fn read_shape(s: &[u8], at: usize) -> Result<(ShapeCodes, usize), Fault>
    ensures { parsed result ≡ shape s.now at }
{
    let (count, at) = read_below(s, at, 65)?;
    let count = count as usize;
    let (points, at) = read_points(s, at, count)?;
    let (loopback, at) = read_loopback(s, at)?;
    let shape = ShapeCodes {
        points,
        count,
        loopback,
    };
    Ok((shape, at))
}
