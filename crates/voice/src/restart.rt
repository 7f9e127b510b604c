// A voice restarted: `trigger` of lfo/mod.rs.
ghost use Rattle.std.specs.Prelude.{◌≡◌};
ghost use Rattle.voice.specs.Source.{attractor_at};
ghost use Rattle.voice.specs.Voice.{restarted_anchor, fresh_source, restarted_source, inverse_of, restarted_output, triggered_voice};

use super::Voice;
use super::output::Output;
use super::source::Source;
use chaos::{Attractor, State};
use clock::{Anchor, Block};
use settings::{LfoType, Mode, Settings};

// An attractor's state `cycles` on from its start point; for another type, `s`.
#[tactic(auto, unfolding(crate::specs::Source::attractor_at))]
fn attractor_at(kind: LfoType, cycles: f64, s: State) -> State
    ensures { result ≡ attractor_at kind cycles s }
{
    match kind {
        LfoType::Drawn => s,
        LfoType::Path => s,
        LfoType::Lorenz => chaos::start_at(Attractor::Lorenz, cycles),
        LfoType::Rossler => chaos::start_at(Attractor::Rossler, cycles),
        LfoType::SampleAndHold => s,
    }
}

// From Phase, or where Song lock grounds it; in Free mode the anchor stays.
#[tactic(auto, unfolding(crate::specs::Voice::restarted_anchor))]
fn restarted_anchor(mode: Mode, anchor: Anchor, block: Block) -> Anchor
    ensures { result ≡ restarted_anchor mode anchor block }
{
    match mode {
        Mode::Free => anchor,
        Mode::Restart => Anchor::started(block),
        Mode::OneShot => Anchor::started(block),
    }
}

// The random word and the held value stay, and the next sample draws; an attractor starts by Phase.
fn fresh_source(kind: LfoType, phase: f64, s: Source) -> Source
    ensures { result ≡ fresh_source kind phase s }
{
    Source {
        cycle: i64::MIN,
        chaos: attractor_at(kind, phase, s.chaos),
        ..s
    }
}

// In Free mode the source stays.
#[tactic(auto, unfolding(crate::specs::Voice::restarted_source))]
fn restarted_source(settings: Settings, phase: f64, s: Source) -> Source
    ensures { result ≡ restarted_source settings.mode settings.kind phase s }
{
    match settings.mode {
        Mode::Free => s,
        Mode::Restart => fresh_source(settings.kind, phase, s),
        Mode::OneShot => fresh_source(settings.kind, phase, s),
    }
}

// 1 / Fade in, or 0 for none.
#[tactic(auto, unfolding(crate::specs::Voice::inverse_of))]
fn inverse(fade: u64) -> f32
    ensures { result ≡ inverse_of fade }
{
    if 0 < fade {
        return narrow::f64_to_f32(1.0 / std::num::nearest_u64_to_f64(fade));
    }
    0.0
}

// Delay and Fade in start, and the next sample sets the start values.
#[tactic(auto, unfolding(crate::specs::Voice::restarted_output))]
fn restarted_output(delay: u64, fade: u64, o: Output) -> Output
    ensures { result ≡ restarted_output delay fade o }
{
    Output {
        t: 0,
        delay,
        fade,
        inv_fade: inverse(fade),
        capture: true,
        ..o
    }
}

// Starts a voice for a note-on in a block: it restarts from Phase, unless the mode is Free or Song lock grounds it in the transport, and its
// Delay and Fade in start.
#[tactic(auto, unfolding(crate::specs::Voice::triggered_voice))]
pub fn trigger(s: Settings, block: Block, v: Voice) -> Voice
    ensures { result ≡ triggered_voice s block v }
{
    Voice {
        anchor: restarted_anchor(s.mode, v.anchor, block),
        source: restarted_source(s, block.phase, v.source),
        output: restarted_output(
            clock::samples(s.delay, block),
            clock::samples(s.fade_in, block),
            v.output,
        ),
        made_for: v.made_for,
    }
}
