// The port of lfo/mod.rs, `LfoVoice` with its `trigger`, `begin`, `stage`, `raw` and `post`: one frame of one voice.
//
// A voice is an anchor, from which its cycle count comes, a source, which generates values at a count, and an output, which delays, fades in
// and smooths them. A frame is `count`, `Anchor::next`, `generate` and `put`, one after the other; `specs/Frame.antt` says what it gives. The
// segments that the last search found, `Kept`, stand beside the voice: no value depends on them.
#![tactic(auto)]

mod begun;
mod curve;
mod generator;
mod output;
mod restart;
mod source;

ghost use Rattle.std.specs.Prelude.{◌≡◌};
ghost use Rattle.voice.specs.Voice.{new_voice};

pub use begun::begin;
use clock::Anchor;
pub use curve::CurveView;
pub use generator::{Generated, Kept, count, generate, is_path};
pub use output::{Channel, Output, Posted, put};
pub use restart::trigger;
use settings::LfoType;
pub use source::Source;

// One voice's state for an LFO slot.
#[derive(Clone, Copy)]
pub struct Voice {
    pub anchor: Anchor,
    pub source: Source,
    pub output: Output,
    // The type that it last began a stretch for, if any.
    pub made_for: Option<LfoType>,
}

impl Voice {
    // A voice whose random values come from `seed`, not yet restarted: it runs from the start of the cycle, at full level.
    #[tactic(auto, unfolding(crate::specs::Voice::new_voice))]
    pub fn new(seed: u64) -> Self
        ensures { result ≡ new_voice seed }
    {
        Voice {
            anchor: Anchor::new(),
            source: Source::new(seed),
            output: Output::new(),
            made_for: None,
        }
    }
}
