// The calls that leave the player as it is: the phase, tag 4, and evaluating a shape and a path, tags 6 and 7.
ghost use Rattle.player.specs.Player.{Valid};
ghost use Rattle.runner.specs.Asked.{phase_call, shape_at_call, path_at_call};
ghost use Rattle.runner.specs.Promises.{TurnsOn};

use fields::Fault;
use player::Player;
use run_calls::{Next, Went, say, say_number, say_value};

// Tag 4: the phase.
#[tactic(auto, unfolding(crate::specs::Asked::phase_call, fields::specs::Parser::after))]
pub fn phase_turn(
    run: &[u8],
    from: &mut Next<Player>,
    out: &mut [u8],
    place: usize,
) -> Result<Went, Fault>
    requires { Valid from.old.player }
    ensures { TurnsOn phase_call run.now from.old out.old place result from.new out.new }
{
    let (codes, at) = runs::read_transport(run, from.at)?;
    from.at = at;
    let phase = player::phase(from.player, codes);
    Ok(say_value(phase, out, place))
}

// Tag 6: a shape at x.
#[tactic(auto, unfolding(crate::specs::Asked::shape_at_call, fields::specs::Parser::after))]
pub fn shape_at_turn(
    run: &[u8],
    from: &mut Next<Player>,
    out: &mut [u8],
    place: usize,
) -> Result<Went, Fault>
    requires { Valid from.old.player }
    ensures { TurnsOn shape_at_call run.now from.old out.old place result from.new out.new }
{
    let (codes, at) = runs::read_shape(run, from.at)?;
    let (x, at) = fields::read_f32(run, at)?;
    from.at = at;
    let value = evaluate::evaluate_shape(codes, x);
    Ok(say_value(value, out, place))
}

// Tag 7: a path at t.
#[tactic(auto, unfolding(crate::specs::Asked::path_at_call, fields::specs::Parser::after))]
pub fn path_at_turn(
    run: &[u8],
    from: &mut Next<Player>,
    out: &mut [u8],
    place: usize,
) -> Result<Went, Fault>
    requires { Valid from.old.player }
    ensures { TurnsOn path_at_call run.now from.old out.old place result from.new out.new }
{
    let (codes, at) = runs::read_path(run, from.at)?;
    let (t, at) = fields::read_f32(run, at)?;
    from.at = at;
    match evaluate::evaluate_path(codes, t) {
        Ok(v) => Ok(say(out, place, &[0], &[v.x, v.y], &[])),
        Err(q) => Ok(say_number(out, place, q.number() as u64)),
    }
}
