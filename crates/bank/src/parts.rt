// A block of one voice.
ghost use Rattle.std.specs.Prelude.{◌≡◌};
ghost use Rattle.voice.specs.Curve.{curve_of};
ghost use Rattle.voice.specs.Voice.{begun_voice};
ghost use Rattle.bank.specs.Render.{Stretch, Renders};
ghost use Rattle.bank.specs.Parts.{stretches_of, first_end, between_of, PlaysParts};

use super::stretch::{Rendered, render};
use clock::Block;
use settings::Settings;
use voice::{CurveView, Voice};

// A stretch that is begun: the voice is readied, and then come its frames.
fn begin_stretch(
    s: Settings,
    block: Block,
    curve: CurveView,
    r: Rendered,
    from: usize,
    count: usize,
    x: &mut [f32],
    y: &mut [f32],
) -> Rendered
    requires { Stretch s (curve_of curve) block r.voice r.kept from count x.old y.old }
    ensures { Renders s (curve_of curve.entry) block (begun_voice s block from r.voice) r.count from count x.old y.old result x.new y.new }
{
    let begun = Rendered {
        voice: voice::begin(s, block, from as u64, r.voice),
        ..r
    };
    render(s, block, curve, begun, from, count, x, y)
}

// How many stretches a block has: a restart makes it two.
#[tactic(auto, unfolding(crate::specs::Parts::stretches_of))]
fn stretches(at: Option<usize>) -> usize
    ensures { result ≡ stretches_of at }
{
    match at {
        None => 1,
        Some(_) => 2,
    }
}

// Where the first of them ends.
#[tactic(auto, unfolding(crate::specs::Parts::first_end))]
fn first_end(at: Option<usize>, frames: usize) -> usize
    ensures { result ≡ first_end at frames }
{
    match at {
        None => frames,
        Some(k) => k.min(frames),
    }
}

// The voice after a stretch: restarted where another one is left.
#[tactic(auto, unfolding(crate::specs::Parts::between_of))]
fn between(left: usize, s: Settings, block: Block, v: Voice) -> Voice
    ensures { result ≡ between_of left s block v }
{
    if left == 0 {
        return v;
    }
    voice::trigger(s, block, v)
}

// Renders a voice over the whole block of `frames` frames, restarting it where `at` says; the count starts at 0, whatever `r` has. One call of `begin_stretch` after
// the other, in place of the loop, takes 1.5 ns a frame more on Drawn at 512 frames and 6 at 16: in the loop it has one call site, and is inlined.
pub fn render_parts(
    s: Settings,
    block: Block,
    curve: CurveView,
    mut r: Rendered,
    at: Option<usize>,
    frames: usize,
    x: &mut [f32],
    y: &mut [f32],
) -> Rendered
    requires { Stretch s (curve_of curve) block r.voice r.kept 0 frames x.old y.old }
    ensures { PlaysParts s (curve_of curve.entry) block r.voice at frames x.old y.old result x.new y.new }
{
    r.count = 0.0;
    let mut from = 0usize;
    let mut end = first_end(at, frames);
    for left in (0..stretches(at)).rev() {
        r = begin_stretch(s, block, curve, r, from, end - from, x, y);
        r.voice = between(left, s, block, r.voice);
        from = end;
        end = frames;
    }
    r
}
