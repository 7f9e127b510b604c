// The calls that set something, tags 0 to 3, and the one that asks for a restart, tag 9.
ghost use Rattle.ensemble_player.specs.Ensembles.{Valid};
ghost use Rattle.ensemble_runner.specs.Asked.{settings_call, shape_call, path_call, bus_call, trigger_call};
ghost use Rattle.ensemble_runner.specs.Promises.{TurnsOn};

use ensemble_player::Ensemble;
use fields::Fault;
use run_calls::{Next, Went, say_change};

// Tag 0: the settings, and whether one voice serves all.
#[tactic(auto, unfolding(crate::specs::Asked::settings_call, fields::specs::Parser::after))]
pub fn settings_turn(
    run: &[u8],
    from: &mut Next<Ensemble>,
    out: &mut [u8],
    place: usize,
) -> Result<Went, Fault>
    requires { Valid from.old.player }
    ensures { TurnsOn settings_call run.now from.old out.old place result from.new out.new }
{
    let (codes, at) = runs::read_settings(run, from.at)?;
    let (shared, at) = fields::read_number(run, at)?;
    from.at = at;
    let changed = ensemble_player::set_settings(from.player, codes, shared);
    Ok(say_change(changed, from, out, place))
}

// Tag 1: the shape.
#[tactic(auto, unfolding(crate::specs::Asked::shape_call, fields::specs::Parser::after))]
pub fn shape_turn(
    run: &[u8],
    from: &mut Next<Ensemble>,
    out: &mut [u8],
    place: usize,
) -> Result<Went, Fault>
    requires { Valid from.old.player }
    ensures { TurnsOn shape_call run.now from.old out.old place result from.new out.new }
{
    let (codes, at) = runs::read_shape(run, from.at)?;
    from.at = at;
    let changed = ensemble_player::set_shape(from.player, codes);
    Ok(say_change(changed, from, out, place))
}

// Tag 2: the path.
#[tactic(auto, unfolding(crate::specs::Asked::path_call, fields::specs::Parser::after))]
pub fn path_turn(
    run: &[u8],
    from: &mut Next<Ensemble>,
    out: &mut [u8],
    place: usize,
) -> Result<Went, Fault>
    requires { Valid from.old.player }
    ensures { TurnsOn path_call run.now from.old out.old place result from.new out.new }
{
    let (codes, at) = runs::read_path(run, from.at)?;
    from.at = at;
    let changed = ensemble_player::set_path(from.player, codes);
    Ok(say_change(changed, from, out, place))
}

// Tag 3: one bus.
#[tactic(auto, unfolding(crate::specs::Asked::bus_call, fields::specs::Parser::after))]
pub fn bus_turn(
    run: &[u8],
    from: &mut Next<Ensemble>,
    out: &mut [u8],
    place: usize,
) -> Result<Went, Fault>
    requires { Valid from.old.player }
    ensures { TurnsOn bus_call run.now from.old out.old place result from.new out.new }
{
    let (bus, at) = fields::read_number(run, from.at)?;
    let (value, at) = fields::read_f32(run, at)?;
    from.at = at;
    let changed = ensemble_player::set_bus(from.player, bus, value);
    Ok(say_change(changed, from, out, place))
}

// Tag 9: a restart asked for.
#[tactic(auto, unfolding(crate::specs::Asked::trigger_call, fields::specs::Parser::after))]
pub fn trigger_turn(
    run: &[u8],
    from: &mut Next<Ensemble>,
    out: &mut [u8],
    place: usize,
) -> Result<Went, Fault>
    requires { Valid from.old.player }
    ensures { TurnsOn trigger_call run.now from.old out.old place result from.new out.new }
{
    let (voice, at) = fields::read_number(run, from.at)?;
    let (frame, at) = fields::read_number(run, at)?;
    from.at = at;
    let changed = ensemble_player::trigger(from.player, voice, frame);
    Ok(say_change(changed, from, out, place))
}
