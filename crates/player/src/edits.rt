// Setting a player's settings, shape, path and buses.
ghost use Rattle.std.specs.Prelude.{◌≡◌};
ghost use Rattle.calls.specs.Calls as call;
ghost use Rattle.player.specs.Player.{edited_player, Valid};
ghost use Rattle.player.specs.Promises.{Changes};

use super::{Deck, Player};
use codes::{PathCodes, SettingsCodes, ShapeCodes};
use questions::Question;
use settings::Settings;
use slot::Page;
use voice::Kept;

// The player with another page. The segments kept are void.
fn edited(p: Player, page: Page) -> Player
    ensures { result ≡ edited_player p page }
{
    let deck = Deck {
        kept: Kept::void(),
        ..p.deck
    };
    Player { page, deck }
}

// Sets the settings, each number in its range.
pub fn set_settings(p: Player, c: SettingsCodes) -> Result<Player, Question>
    requires { Valid p }
    ensures { Changes p (call.settings c) result }
{
    questions::settings_answer(c)?;
    let s = Settings::from_codes(c).ok_or(Question::Known)?;
    let g = p.page;
    Ok(edited(p, Page::of(s.clamped(), g.shape, g.path, g.buses)))
}

// Sets the shape: the first 64 of its points, and the loopback point.
pub fn set_shape(p: Player, c: ShapeCodes) -> Result<Player, Question>
    requires { Valid p }
    ensures { Changes p (call.shape c) result }
{
    questions::shape_answer(true, c)?;
    let shape = curves::shape_of(c);
    let g = p.page;
    Ok(edited(p, Page::of(g.settings, shape, g.path, g.buses)))
}

// Sets the path: the first 64 of its points, and whether it is closed.
pub fn set_path(p: Player, c: PathCodes) -> Result<Player, Question>
    requires { Valid p }
    ensures { Changes p (call.path c) result }
{
    questions::path_answer(true, c)?;
    let path = curves::path_of(c);
    let g = p.page;
    Ok(edited(p, Page::of(g.settings, g.shape, path, g.buses)))
}

// Sets one bus. A value equal to the stored one, 0 and -0 included, changes nothing.
pub fn set_bus(p: Player, bus: u64, value: f32) -> Result<Player, Question>
    requires { Valid p }
    ensures { Changes p (call.bus bus value) result }
{
    questions::bus_answer(bus, value)?;
    let k = bus as usize;
    let g = p.page;
    let mut buses = g.buses;
    if buses[k] == value {
        return Ok(p);
    }
    buses[k] = value;
    Ok(edited(p, Page::of(g.settings, g.shape, g.path, buses)))
}
