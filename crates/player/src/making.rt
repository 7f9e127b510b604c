// Making a player.
ghost use Rattle.std.specs.Prelude.{◌≡◌};
ghost use Rattle.settings.specs.Records.{default_settings};
ghost use Rattle.player.specs.Player.{new_deck, new_player, Valid};
ghost use Rattle.player.specs.Promises.{Makes};

use super::{Deck, Player};
use clock::Clock;
use codes::SettingsCodes;
use questions::Question;
use settings::Settings;
use slot::Page;
use voice::{Kept, Voice};

// A deck with a voice whose random values come from `seed`.
fn new_deck(seed: u64) -> Deck
    ensures { result ≡ new_deck seed }
{
    Deck {
        clock: Clock::new(),
        voice: Voice::new(seed),
        kept: Kept::void(),
        played: 0,
    }
}

fn new_player(s: Settings, seed: u64) -> Player
    ensures { result ≡ new_player s seed }
{
    Player {
        page: Page::new(s),
        deck: new_deck(seed),
    }
}

// A player with the default settings, for whoever has to go on where a making is refused.
pub fn default_player(seed: u64) -> Player
    ensures player { result ≡ new_player default_settings seed }
    ensures valid { Valid result }
{
    new_player(Settings::default(), seed)
}

// Makes a player with these settings, its random values from `seed`.
pub fn make(c: SettingsCodes, seed: u64) -> Result<Player, Question>
    ensures { Makes c seed result }
{
    questions::settings_answer(c)?;
    let s = Settings::from_codes(c).ok_or(Question::Known)?;
    Ok(new_player(s, seed))
}
