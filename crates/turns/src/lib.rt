// Playing a recorded sitting whose bytes come in pieces.
//
// A sitting goes in by value and comes back. `take_turns` plays what the bytes at hand decide, prints it into a buffer, and says how many bytes it took. A program
// hands it the rest again with more behind it, and where the input has ended has `last_text` print what is still due. That what is printed is the sheet, however the input is cut
// into pieces, is `PrintsSheet` of crate sittings.
#![tactic(auto)]

mod beginning;
mod parts;
mod steps;

pub use beginning::{begin, is_over};
use codes::{RestartCodes, TransportCodes};
use player::Player;
pub use steps::{last_text, take_turns};

// What the event `index` meets.
#[derive(Clone, Copy)]
pub struct Playback {
    pub player: Player,
    // At the next block's first sample.
    pub transport: TransportCodes,
    // The restart that waits for the next block.
    pub waiting: RestartCodes,
    pub index: u64,
}

// What is read: the item, or the event of an index. An item is read as itself, not as the lack of an event, so this is no Option.
#[derive(Clone, Copy)]
pub enum Part {
    Item,
    Event(u64),
}

// How far a sitting has come.
#[derive(Clone, Copy)]
pub enum Sitting {
    // Before the item.
    Opening,
    // Before an event.
    Playing(Playback),
    // After the end, which is the event of this index.
    Closing(u64),
    // In a number of more than ten bytes.
    Stuck(Part),
    // Nothing more is printed.
    NoMore,
}

// The stage that a turn ends in, where no player goes on.
#[derive(Clone, Copy)]
pub enum Ended {
    Closing(u64),
    Stuck(Part),
    NoMore,
}

// What a turn did: it took so many bytes and printed up to a place. A sitting with a player is changed where it stands, since a player is large; any other stage is put into
// its place afterwards.
#[derive(Clone, Copy)]
pub struct Turned {
    pub ended: Option<Ended>,
    pub taken: usize,
    pub place: usize,
}

// What some turns did: they took so many bytes, printed so many, and left this sitting. `full` says that the buffer may be too short for the next turn. All fields
// count in both cases, so it is a flag and no enum.
#[derive(Clone, Copy)]
pub struct Step {
    pub sitting: Sitting,
    pub taken: usize,
    pub written: usize,
    pub full: bool,
}
