// The player of an item: made with its settings and seed, and given its shape, its path and its buses by calls.
#![tactic(auto)]

ghost use Rattle.std.specs.Prelude.{◌≡◌};
ghost use Rattle.calls.specs.Calls.{after, made, path, shape, step};
ghost use Rattle.player.specs.Player.{state_of, Valid};
ghost use Rattle.item_calls.specs.Calls.{bus_calls, item_state};

use codes::{ItemCodes, PathCodes, SettingsCodes, ShapeCodes};
use player::Player;
use points::POINT_BUSES;

// The player made, or where its settings are refused, one with the default settings.
fn first_player(c: SettingsCodes, seed: u64) -> Player
    ensures { (state_of result ≡ made c seed) × Valid result }
{
    match player::make(c, seed) {
        Ok(p) => p,
        Err(_) => player::default_player(seed),
    }
}

// The player with this shape, or as it is where the shape is refused.
fn with_shape(p: Player, c: ShapeCodes) -> Player
    requires { Valid p }
    ensures { (state_of result ≡ step (state_of p) (shape c)) × Valid result }
{
    match player::set_shape(p, c) {
        Ok(shaped) => shaped,
        Err(_) => p,
    }
}

// The same of a path.
fn with_path(p: Player, c: PathCodes) -> Player
    requires { Valid p }
    ensures { (state_of result ≡ step (state_of p) (path c)) × Valid result }
{
    match player::set_path(p, c) {
        Ok(pathed) => pathed,
        Err(_) => p,
    }
}

fn with_buses(p: Player, buses: [f32; POINT_BUSES]) -> Player
    requires { Valid p }
    ensures { (state_of result ≡ after (state_of p) (bus_calls buses 0)) × Valid result }
{
    let mut q = p;
    for k in 0..POINT_BUSES {
        match player::set_bus(q, k as u64, buses[k]) {
            Ok(moved) => q = moved,
            Err(_) => {}
        }
    }
    q
}

// The player that an item's calls leave, whatever the item.
pub fn player_of(c: ItemCodes) -> Player
    ensures { (state_of result ≡ item_state c) × Valid result }
{
    let first = first_player(c.settings, c.seed);
    let shaped = with_shape(first, c.shape);
    let pathed = with_path(shaped, c.path);
    with_buses(pathed, c.buses)
}
