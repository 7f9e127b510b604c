// The calls that set something: tags 0 to 3.
ghost use Rattle.player.specs.Player.{Valid};
ghost use Rattle.runner.specs.Asked.{settings_call, shape_call, path_call, bus_call};
ghost use Rattle.runner.specs.Promises.{TurnsOn};

use fields::Fault;
use player::Player;
use run_calls::{Next, Went, say_change};

// Tag 0: the settings.
#[tactic(auto, unfolding(crate::specs::Asked::settings_call, fields::specs::Parser::after))]
pub fn settings_turn(
    run: &[u8],
    from: &mut Next<Player>,
    out: &mut [u8],
    place: usize,
) -> Result<Went, Fault>
    requires { Valid from.old.player }
    ensures { TurnsOn settings_call run.now from.old out.old place result from.new out.new }
{
    let (codes, at) = runs::read_settings(run, from.at)?;
    from.at = at;
    let changed = player::set_settings(from.player, codes);
    Ok(say_change(changed, from, out, place))
}

// Tag 1: the shape.
#[tactic(auto, unfolding(crate::specs::Asked::shape_call, fields::specs::Parser::after))]
pub fn shape_turn(
    run: &[u8],
    from: &mut Next<Player>,
    out: &mut [u8],
    place: usize,
) -> Result<Went, Fault>
    requires { Valid from.old.player }
    ensures { TurnsOn shape_call run.now from.old out.old place result from.new out.new }
{
    let (codes, at) = runs::read_shape(run, from.at)?;
    from.at = at;
    let changed = player::set_shape(from.player, codes);
    Ok(say_change(changed, from, out, place))
}

// Tag 2: the path.
#[tactic(auto, unfolding(crate::specs::Asked::path_call, fields::specs::Parser::after))]
pub fn path_turn(
    run: &[u8],
    from: &mut Next<Player>,
    out: &mut [u8],
    place: usize,
) -> Result<Went, Fault>
    requires { Valid from.old.player }
    ensures { TurnsOn path_call run.now from.old out.old place result from.new out.new }
{
    let (codes, at) = runs::read_path(run, from.at)?;
    from.at = at;
    let changed = player::set_path(from.player, codes);
    Ok(say_change(changed, from, out, place))
}

// Tag 3: one bus.
#[tactic(auto, unfolding(crate::specs::Asked::bus_call, fields::specs::Parser::after))]
pub fn bus_turn(
    run: &[u8],
    from: &mut Next<Player>,
    out: &mut [u8],
    place: usize,
) -> Result<Went, Fault>
    requires { Valid from.old.player }
    ensures { TurnsOn bus_call run.now from.old out.old place result from.new out.new }
{
    let (bus, at) = fields::read_number(run, from.at)?;
    let (value, at) = fields::read_f32(run, at)?;
    from.at = at;
    let changed = player::set_bus(from.player, bus, value);
    Ok(say_change(changed, from, out, place))
}
