// A voice as a stretch of frames begins: `begin` of lfo/mod.rs, without its points.
ghost use Rattle.std.specs.Prelude.{◌≡◌};
ghost use Rattle.voice.specs.Source.{is_made_for, attractor_start};
ghost use Rattle.voice.specs.Voice.{begun_source, begun_anchor, begun_voice};

use super::Voice;
use super::source::Source;
use chaos::{Attractor, Law, State};
use clock::{Anchor, Block};
use settings::{LfoType, Mode, Settings};

// Whether the type that a voice last began a stretch for, if any, is this one.
fn is_made_for(last: Option<LfoType>, kind: LfoType) -> bool
    ensures { result ≡ is_made_for last kind }
{
    last == Some(kind)
}

// An attractor's start point; for another type, `s`.
#[tactic(auto, unfolding(crate::specs::Source::attractor_start))]
fn attractor_start(kind: LfoType, s: State) -> State
    ensures { result ≡ attractor_start kind s }
{
    match kind {
        LfoType::Drawn => s,
        LfoType::Path => s,
        LfoType::Lorenz => Law::of(Attractor::Lorenz).start,
        LfoType::Rossler => Law::of(Attractor::Rossler).start,
        LfoType::SampleAndHold => s,
    }
}

// An attractor that the voice did not last begin for starts at its start point.
#[tactic(auto, unfolding(crate::specs::Voice::begun_source))]
fn begun_source(kind: LfoType, made_for: Option<LfoType>, s: Source) -> Source
    ensures { result ≡ begun_source kind made_for s }
{
    if is_made_for(made_for, kind) {
        return s;
    }
    Source {
        chaos: attractor_start(kind, s.chaos),
        ..s
    }
}

// In Free mode the player's clock counts, and the anchor stays.
#[tactic(auto, unfolding(crate::specs::Voice::begun_anchor))]
fn begun_anchor(mode: Mode, anchor: Anchor, block: Block, from: u64) -> Anchor
    ensures { result ≡ begun_anchor mode anchor block from }
{
    match mode {
        Mode::Free => anchor,
        Mode::Restart | Mode::OneShot => anchor.begun(block, from),
    }
}

// Readies a voice for a stretch that starts at sample `from` of a block.
#[tactic(auto, unfolding(crate::specs::Voice::begun_voice))]
pub fn begin(s: Settings, block: Block, from: u64, v: Voice) -> Voice
    ensures { result ≡ begun_voice s block from v }
{
    Voice {
        anchor: begun_anchor(s.mode, v.anchor, block, from),
        source: begun_source(s.kind, v.made_for, v.source),
        output: v.output,
        made_for: Some(s.kind),
    }
}
