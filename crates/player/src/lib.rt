// A player, and every call of document 01 on it. A player goes in by value. A call that sets something gives back a player; a block gives back the player's
// deck, all that a block changes, and the caller puts it in its place: `p.deck = r.deck`. A call that is refused gives the first question that it fails, and the
// caller goes on with the player that it handed in.
//
// `Valid` of specs/Player.antt is what every player has: `make` ensures it, and each other call asks it and keeps it.
#![tactic(auto)]

mod edits;
mod making;
mod phases;
mod playing;

use clock::Clock;
pub use edits::{set_bus, set_path, set_settings, set_shape};
pub use making::{default_player, make};
pub use phases::phase;
pub use playing::play;
use slot::Page;
use voice::{Kept, Voice};

// What a block changes: the free clock, the voice, the segments that its last search found, and the frames played since the player was made.
#[derive(Clone, Copy)]
pub struct Deck {
    pub clock: Clock,
    pub voice: Voice,
    pub kept: Kept,
    pub played: u64,
}

// A player: what a block reads, and what it changes.
#[derive(Clone, Copy)]
pub struct Player {
    pub page: Page,
    pub deck: Deck,
}

// What playing a block gives: the player's deck after it, and whether a One-shot has reached its end in it.
#[derive(Clone, Copy)]
pub struct Played {
    pub finished: bool,
    pub deck: Deck,
}
