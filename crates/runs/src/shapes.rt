// Shapes.
ghost use Rattle.std.specs.Prelude.{◌≡◌};
ghost use Rattle.fields.specs.Fields.{parsed};
ghost use Rattle.runs.specs.Curves.{modulation, point, points, loopback, shape};

use super::kept::read_kept;
use codes::{LoopbackCodes, ModCodes, PointCodes, ShapeCodes, blank_points};
use fields::{Fault, read_below, read_byte, read_f32, read_if, read_number};
use points::MAX_POINTS;

#[tactic(auto, unfolding(crate::specs::Curves::modulation, fields::specs::Parser::after))]
pub fn read_mod(run: &[u8], at: usize) -> Result<(ModCodes, usize), Fault>
    ensures { parsed result ≡ modulation run.now at }
{
    let (code, at) = read_number(run, at)?;
    let (bus, at) = read_if(at, code == 1, 0, |at| read_byte(run, at))?;
    let (depth, at) = read_if(at, code == 1, 0.0, |at| read_f32(run, at))?;
    Ok((ModCodes { code, bus, depth }, at))
}

#[tactic(auto, unfolding(crate::specs::Curves::point, fields::specs::Parser::after))]
fn read_point(run: &[u8], at: usize) -> Result<(PointCodes, usize), Fault>
    ensures { parsed result ≡ point run.now at }
{
    let (x, at) = read_f32(run, at)?;
    let (y, at) = read_f32(run, at)?;
    let (curve, at) = read_f32(run, at)?;
    let (step, at) = read_number(run, at)?;
    let (x_mod, at) = read_mod(run, at)?;
    let (y_mod, at) = read_mod(run, at)?;
    let point = PointCodes {
        x,
        y,
        curve,
        step,
        x_mod,
        y_mod,
    };
    Ok((point, at))
}

// Reads `count` points and keeps the first 64, in an array of fixed size (no heap).
fn read_points(
    run: &[u8],
    at: usize,
    count: usize,
) -> Result<([PointCodes; MAX_POINTS], usize), Fault>
    ensures { parsed result ≡ points count run.now at }
{
    read_kept(at, count, blank_points(), |at| read_point(run, at))
}

#[tactic(auto, unfolding(crate::specs::Curves::loopback, fields::specs::Parser::after))]
fn read_loopback(run: &[u8], at: usize) -> Result<(LoopbackCodes, usize), Fault>
    ensures { parsed result ≡ loopback run.now at }
{
    let (code, at) = read_number(run, at)?;
    let (index, at) = read_if(at, code == 1, 0, |at| read_number(run, at))?;
    Ok((LoopbackCodes { code, index }, at))
}

#[tactic(auto, unfolding(crate::specs::Curves::shape, fields::specs::Parser::after))]
pub fn read_shape(run: &[u8], at: usize) -> Result<(ShapeCodes, usize), Fault>
    ensures { parsed result ≡ shape run.now at }
{
    let (count, at) = read_below(run, at, 4097)?;
    let count = count as usize;
    let (points, at) = read_points(run, at, count)?;
    let (loopback, at) = read_loopback(run, at)?;
    let shape = ShapeCodes {
        points,
        count,
        loopback,
    };
    Ok((shape, at))
}
