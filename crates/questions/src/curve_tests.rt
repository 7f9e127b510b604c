// Tests of a shape and a path as a call hands them in, each of one question.
ghost use Rattle.std.specs.Prelude.{◌≡◌, Bool};
ghost use Rattle.questions.specs.Tests.{every_kept, point_known, shape_known, path_point_known, path_known, mod_finite, point_finite, shape_finite, path_point_finite, path_finite, loopback_below, loopback_in, path_point_on_paper, path_on_paper, point_on_grid, shape_on_grid};

use super::floats::{if_chosen, is_finite_f32};
use codes::{LoopbackCodes, ModCodes, PathCodes, PathPointCodes, PointCodes, ShapeCodes};
use points::MAX_POINTS;

// Whether each point that is kept of `count` passes `test`.
fn every_kept<C: Copy, F: Fn(C) -> bool>(points: &[C; MAX_POINTS], count: usize, test: F) -> bool
    requires { F.IsAlwaysCallable test }
    ensures { (t : C → Bool) (none : C) → ((c : C) (r : Bool) → F.post test c r → r ≡ t c) → result ≡ every_kept t none points.now count }
{
    points[..points::kept(count)].iter().all(|c| test(*c))
}

fn mod_finite(c: ModCodes) -> bool
    ensures { result ≡ mod_finite c }
{
    if_chosen(c.code == 1, is_finite_f32(c.depth))
}

// ---- a shape

fn point_known(c: PointCodes) -> bool
    ensures { result ≡ point_known c }
{
    (c.step < 2) & (c.x_mod.code < 2) & (c.y_mod.code < 2)
}

fn point_finite(c: PointCodes) -> bool
    ensures { result ≡ point_finite c }
{
    is_finite_f32(c.x)
        & is_finite_f32(c.y)
        & is_finite_f32(c.curve)
        & mod_finite(c.x_mod)
        & mod_finite(c.y_mod)
}

// Question 1 of a shape.
pub fn shape_known(c: ShapeCodes) -> bool
    ensures { result ≡ shape_known c }
{
    every_kept(&c.points, c.count, point_known) & (c.loopback.code < 2)
}

// Question 2.
pub fn shape_finite(c: ShapeCodes) -> bool
    ensures { result ≡ shape_finite c }
{
    every_kept(&c.points, c.count, point_finite)
}

// Whether a loopback point, if present, is one of `n` points.
fn loopback_below(c: LoopbackCodes, n: usize) -> bool
    ensures { result ≡ loopback_below c n }
{
    if_chosen(c.code == 1, c.index < n as u64)
}

// Question 4.
pub fn loopback_in(c: ShapeCodes) -> bool
    ensures { result ≡ loopback_in c }
{
    loopback_below(c.loopback, points::kept(c.count))
}

fn point_on_grid(c: PointCodes) -> bool
    ensures { result ≡ point_on_grid c }
{
    bend::on_grid(c.curve)
}

// Question 10.
pub fn shape_on_grid(c: ShapeCodes) -> bool
    ensures { result ≡ shape_on_grid c }
{
    every_kept(&c.points, c.count, point_on_grid)
}

// ---- a path. Its points have other fields than a shape's, so a trait of both would still have a body for each.

fn path_point_known(c: PathPointCodes) -> bool
    ensures { result ≡ path_point_known c }
{
    (c.x_mod.code < 2) & (c.y_mod.code < 2)
}

fn path_point_finite(c: PathPointCodes) -> bool
    ensures { result ≡ path_point_finite c }
{
    is_finite_f32(c.x)
        & is_finite_f32(c.y)
        & is_finite_f32(c.bend)
        & mod_finite(c.x_mod)
        & mod_finite(c.y_mod)
}

// Question 1 of a path.
pub fn path_known(c: PathCodes) -> bool
    ensures { result ≡ path_known c }
{
    every_kept(&c.points, c.count, path_point_known) & (c.closed < 2)
}

// Question 2.
pub fn path_finite(c: PathCodes) -> bool
    ensures { result ≡ path_finite c }
{
    every_kept(&c.points, c.count, path_point_finite)
}

fn path_point_on_paper(c: PathPointCodes) -> bool
    ensures { result ≡ path_point_on_paper c }
{
    leg::on_paper(c.x) & leg::on_paper(c.y)
}

// Question 11.
pub fn path_on_paper(c: PathCodes) -> bool
    ensures { result ≡ path_on_paper c }
{
    every_kept(&c.points, c.count, path_point_on_paper)
}
