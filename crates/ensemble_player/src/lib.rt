// An ensemble of two to sixteen voices over one page, and every call on it. An ensemble goes in by value. A call that sets something or asks for a restart gives back an
// ensemble; a block gives back what it changes, and the caller puts it in its place: `e.decks = r.decks`. A call that is refused gives the question that it fails, and the
// caller keeps what it handed in.
//
// The serving voice with the page is a player (crate player), and an edit of the ensemble is an edit of it.
// `Valid` of specs/Ensembles.antt is what every ensemble has: `make` ensures it, and each other call asks it and keeps it.
#![tactic(auto)]

mod edits;
mod making;
mod phases;
mod playing;
mod requests;

ghost use Rattle.std.specs.Prelude.{◌≡◌};
ghost use Rattle.ensemble_player.specs.Ensembles.{server_of};

pub use edits::{set_bus, set_path, set_settings, set_shape};
use ensemble::Member;
pub use making::{ensemble_of, make};
pub use phases::phase;
use player::{Deck, Player};
pub use playing::play;
pub use requests::trigger;
use slot::Page;

// The most voices.
const MAX_VOICES: usize = 16;

// What a block changes: the serving voice's deck, with the clock of all and the frames played; the greatest frame asked for since the last block, if any; and
// the voices.
#[derive(Clone, Copy)]
pub struct Decks {
    pub server: Deck,
    pub asked: Option<usize>,
    pub members: [Member; MAX_VOICES],
}

// What calls set, and whether the serving voice plays for all; how many voices there are, the first of those on the decks; and what a block changes.
#[derive(Clone, Copy)]
pub struct Ensemble {
    pub page: Page,
    pub shared: bool,
    pub count: usize,
    pub decks: Decks,
}

// What playing a block gives: the decks after it, and whether each voice has reached the end of a One-shot in it.
#[derive(Clone, Copy)]
pub struct Played {
    pub finished: [bool; MAX_VOICES],
    pub decks: Decks,
}

// The serving voice as a player, on the page of all.
fn server_of(e: Ensemble) -> Player
    ensures { result ≡ server_of e }
{
    Player {
        page: e.page,
        deck: e.decks.server,
    }
}
