// The port of lfo/bank.rs, `LfoBank` with `shared` off: a block of two to sixteen voices over one page, output interleaved by voice.
//
// A block's page is what all voices read in a block, by value. The voices are a lent list of records. `turn` plays one of them: it is thin, and the
// work is `played`, which takes a record by value. `turns` takes them one after the other, and `play_members` lends it a list that it has by value.
#![tactic(auto)]

mod page;
mod playing;
mod single;

use clock::Block;
pub use page::block_page;
use path_segments::MAX_TIMES;
pub use playing::{play_members, turn, turns};
use settings::Settings;
pub use single::played;
use slot::Lists;
use voice::Voice;

// What all voices read in a block: the settings, the block's constants, the points as moved by the buses, and how many frames and voices it has.
#[derive(Clone, Copy)]
pub struct BlockPage {
    pub settings: Settings,
    pub block: Block,
    pub lists: Lists,
    pub n: usize,
    pub times: [f32; MAX_TIMES],
    pub closed: bool,
    pub loopback: Option<f64>,
    pub frames: usize,
    pub voices: usize,
}

// One voice of an ensemble: its state, the restart asked for in its next block, if any, and whether its last block ended a One-shot.
#[derive(Clone, Copy)]
pub struct Member {
    pub voice: Voice,
    pub pending: Option<usize>,
    pub finished: bool,
}
