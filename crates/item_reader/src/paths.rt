// Paths.
ghost use Rattle.std.specs.Prelude.{◌≡◌, ◌≤◌};
ghost use Rattle.listlaws.specs.Tables.{padded};
ghost use Rattle.codes.specs.Blanks.{blank_path_point};
ghost use Rattle.fields.specs.Parser.{◌then◌, done, row};
ghost use Rattle.fields.specs.Fields.{parsed};
ghost use Rattle.record.specs.Reading.{path_point, path};

use super::shapes::{in_bend, read_modulation};
use codes::{PathCodes, PathPointCodes, blank_path_points};
use fields::{Fault, read_below, read_f32_that, read_row};
use points::MAX_POINTS;

#[tactic(auto, unfolding(record::specs::Reading::path_point, fields::specs::Parser::after))]
fn read_path_point(s: &[u8], at: usize) -> Result<(PathPointCodes, usize), Fault>
    ensures { parsed result ≡ path_point s.now at }
{
    let (x, at) = read_f32_that(s, at, |x| questions::is_finite_f32(x))?;
    let (y, at) = read_f32_that(s, at, |x| questions::is_finite_f32(x))?;
    let (bend, at) = read_f32_that(s, at, in_bend)?;
    let (x_mod, at) = read_modulation(s, at)?;
    let (y_mod, at) = read_modulation(s, at)?;
    let point = PathPointCodes {
        x,
        y,
        bend,
        x_mod,
        y_mod,
    };
    Ok((point, at))
}

// `count` points, in the front of a blank array of fixed size (no heap).
fn read_path_points(
    s: &[u8],
    at: usize,
    count: usize,
) -> Result<([PathPointCodes; MAX_POINTS], usize), Fault>
    requires { count ≤ 64 }
    ensures { parsed result ≡ (row (λ l. path_point) count then λ l. done (padded 64 blank_path_point l)) s.now at }
{
    read_row(at, count, blank_path_points(), |_, at| {
        read_path_point(s, at)
    })
}

#[tactic(auto, unfolding(record::specs::Reading::path, fields::specs::Parser::after))]
pub fn read_path(s: &[u8], at: usize) -> Result<(PathCodes, usize), Fault>
    ensures { parsed result ≡ path s.now at }
{
    let (count, at) = read_below(s, at, 65)?;
    let count = count as usize;
    let (closed, at) = read_below(s, at, 2)?;
    let (points, at) = read_path_points(s, at, count)?;
    let path = PathCodes {
        points,
        count,
        closed,
    };
    Ok((path, at))
}
