// Paths.
ghost use Rattle.std.specs.Prelude.{◌≡◌};
ghost use Rattle.fields.specs.Fields.{parsed};
ghost use Rattle.runs.specs.Curves.{path_point, path_points, path};

use super::kept::read_kept;
use super::shapes::read_mod;
use codes::{PathCodes, PathPointCodes, blank_path_points};
use fields::{Fault, read_below, read_f32, read_number};
use points::MAX_POINTS;

#[tactic(auto, unfolding(crate::specs::Curves::path_point, fields::specs::Parser::after))]
fn read_path_point(run: &[u8], at: usize) -> Result<(PathPointCodes, usize), Fault>
    ensures { parsed result ≡ path_point run.now at }
{
    let (x, at) = read_f32(run, at)?;
    let (y, at) = read_f32(run, at)?;
    let (bend, at) = read_f32(run, at)?;
    let (x_mod, at) = read_mod(run, at)?;
    let (y_mod, at) = read_mod(run, at)?;
    let point = PathPointCodes {
        x,
        y,
        bend,
        x_mod,
        y_mod,
    };
    Ok((point, at))
}

// Reads `count` points and keeps the first 64, in an array of fixed size (no heap).
fn read_path_points(
    run: &[u8],
    at: usize,
    count: usize,
) -> Result<([PathPointCodes; MAX_POINTS], usize), Fault>
    ensures { parsed result ≡ path_points count run.now at }
{
    read_kept(
        at,
        count,
        blank_path_points(),
        |at| read_path_point(run, at),
    )
}

#[tactic(auto, unfolding(crate::specs::Curves::path, fields::specs::Parser::after))]
pub fn read_path(run: &[u8], at: usize) -> Result<(PathCodes, usize), Fault>
    ensures { parsed result ≡ path run.now at }
{
    let (count, at) = read_below(run, at, 4097)?;
    let count = count as usize;
    let (closed, at) = read_number(run, at)?;
    let (points, at) = read_path_points(run, at, count)?;
    let path = PathCodes {
        points,
        count,
        closed,
    };
    Ok((path, at))
}
