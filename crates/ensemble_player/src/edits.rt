// Setting an ensemble's settings, shape, path and buses: edits of the serving voice's player, whose page is that of all.
ghost use Rattle.std.specs.Prelude.{◌≡◌};
ghost use Rattle.ensemble_calls.specs.Calls as call;
ghost use Rattle.ensemble_player.specs.Ensembles.{paged_ensemble, Valid};
ghost use Rattle.ensemble_player.specs.Promises.{Changes};

use super::{Ensemble, server_of};
use codes::{PathCodes, SettingsCodes, ShapeCodes};
use player::Player;
use questions::{Question, ask};

// The ensemble with the page and the deck of this player.
fn paged(e: Ensemble, server: Player, shared: bool) -> Ensemble
    ensures { result ≡ paged_ensemble e server shared }
{
    let mut decks = e.decks;
    decks.server = server.deck;
    Ensemble {
        page: server.page,
        shared,
        count: e.count,
        decks,
    }
}

// Sets the settings, each number in its range, and whether one voice serves all.
pub fn set_settings(e: Ensemble, c: SettingsCodes, shared: u64) -> Result<Ensemble, Question>
    requires { Valid e }
    ensures { Changes e (call.settings c shared) result }
{
    ask(shared < 2, Question::Known)?;
    let server = player::set_settings(server_of(e), c)?;
    Ok(paged(e, server, shared == 1))
}

// Sets the shape: the first 64 of its points, and the loopback point.
pub fn set_shape(e: Ensemble, c: ShapeCodes) -> Result<Ensemble, Question>
    requires { Valid e }
    ensures { Changes e (call.shape c) result }
{
    let server = player::set_shape(server_of(e), c)?;
    Ok(paged(e, server, e.shared))
}

// Sets the path: the first 64 of its points, and whether it is closed.
pub fn set_path(e: Ensemble, c: PathCodes) -> Result<Ensemble, Question>
    requires { Valid e }
    ensures { Changes e (call.path c) result }
{
    let server = player::set_path(server_of(e), c)?;
    Ok(paged(e, server, e.shared))
}

// Sets one bus. A value equal to the stored one, 0 and -0 included, changes nothing.
pub fn set_bus(e: Ensemble, bus: u64, value: f32) -> Result<Ensemble, Question>
    requires { Valid e }
    ensures { Changes e (call.bus bus value) result }
{
    let server = player::set_bus(server_of(e), bus, value)?;
    Ok(paged(e, server, e.shared))
}
