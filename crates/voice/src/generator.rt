// What a voice generates at a cycle count: `stage` and `raw` of lfo/mod.rs, without delay and fade in.
ghost use Rattle.std.specs.Prelude.{◌≡◌, ◌+◌, ◌^◌, ◌<◌, ◌≤◌};
ghost use Rattle.clock.specs.Block.{free_count};
ghost use Rattle.voice.specs.Source.{cycle_of, step_of, is_path, attractor_of};
ghost use Rattle.voice.specs.Curve.{curve_of, drawn_at, path_at, void_kept, HoldsDrawn, HoldsPath, Searchable, KeptFor};
ghost use Rattle.voice.specs.Generate.{count_at, place_of, drew_at, traced_at, held_at, chaotic_at, Generates};

use super::curve::CurveView;
use super::source::Source;
use chaos::Attractor;
use clock::{Anchor, Block};
use path_segments::PathSegment;
use settings::{LfoType, Mode, Settings};
use shape_segments::Segment;

// The segments that the last search found.
#[derive(Clone, Copy)]
pub struct Kept {
    pub seg: Segment,
    pub path_seg: PathSegment,
}

impl Kept {
    // None: a segment that holds no position.
    pub fn void() -> Self
        ensures { result ≡ void_kept }
    {
        Kept {
            seg: Segment::default(),
            path_seg: PathSegment::default(),
        }
    }
}

// The source and the kept segments after a sample, and its raw X and Y.
#[derive(Clone, Copy)]
pub struct Generated {
    pub source: Source,
    pub kept: Kept,
    pub x: f32,
    pub y: f32,
}

// The cycle count at sample k, swung.
#[tactic(auto, unfolding(crate::specs::Generate::count_at))]
pub fn count(mode: Mode, block: Block, anchor: Anchor, k: u64) -> f64
    requires { free_count block.free + k < 2 ^ 64 }
    ensures { result ≡ count_at mode block anchor k }
{
    let c = clock::cycles(mode, block, anchor, k);
    match block.swing {
        None => c,
        Some(first) => position::swung(c, first),
    }
}

// Where in the shape a count falls.
#[tactic(auto, unfolding(crate::specs::Generate::place_of))]
fn place(settings: Settings, from: Option<f64>, c: f64) -> f32
    ensures { result ≡ place_of settings.mode settings.direction from c }
{
    narrow::f64_to_f32(position::position(settings, c, from))
}

// The drawn shape at p.
fn drawn(s: Source, kept: Kept, curve: CurveView, p: f32) -> Generated
    requires { (curve.n ≤ 64) × HoldsDrawn (drawn_at (curve_of curve)) kept.seg }
    ensures { result ≡ drew_at s kept (drawn_at (curve_of curve.entry) p) p }
{
    let seg = curve.drawn_at(kept.seg, p);
    Generated {
        source: s,
        kept: Kept {
            seg,
            path_seg: kept.path_seg,
        },
        x: seg.eval(p),
        y: 0.0,
    }
}

// The path at p.
fn traced(s: Source, kept: Kept, curve: CurveView, p: f32) -> Generated
    requires { (curve.n ≤ 64) × HoldsPath (path_at (curve_of curve)) kept.path_seg }
    ensures { result ≡ traced_at s kept (path_at (curve_of curve.entry) p) p }
{
    let path_seg = curve.path_at(kept.path_seg, p);
    let at = path_seg.eval(p);
    Generated {
        source: s,
        kept: Kept {
            seg: kept.seg,
            path_seg,
        },
        x: at.x,
        y: at.y,
    }
}

// The cycle of a count; a One-shot keeps its first value.
#[tactic(auto, unfolding(crate::specs::Source::cycle_of))]
fn cycle(mode: Mode, c: f64) -> i64
    ensures { result ≡ cycle_of mode c }
{
    match mode {
        Mode::Free => whole::floor_to_i64(c),
        Mode::Restart => whole::floor_to_i64(c),
        Mode::OneShot => 0,
    }
}

// One random value a cycle.
#[tactic(auto, unfolding(crate::specs::Generate::held_at))]
fn held(s: Source, kept: Kept, cycle: i64) -> Generated
    ensures { result ≡ held_at s kept cycle }
{
    let source = s.sampled(cycle);
    Generated {
        source,
        kept,
        x: shape_segments::curve(0.0, source.held, 0.0, 1.0),
        y: 0.0,
    }
}

// The chaos step: a One-shot stands still from one cycle on.
#[tactic(auto, unfolding(crate::specs::Source::step_of))]
fn step(mode: Mode, c: f64, h: f32) -> f32
    ensures { result ≡ step_of mode c h }
{
    match mode {
        Mode::Free => h,
        Mode::Restart => h,
        Mode::OneShot => {
            if c >= 1.0 {
                return 0.0;
            }
            h
        }
    }
}

// Whether it is the type whose points are a path's.
pub fn is_path(kind: LfoType) -> bool
    ensures { result ≡ is_path kind }
{
    matches!(kind, LfoType::Path)
}

// The attractor of a type that is one.
fn attractor_of(kind: LfoType) -> Attractor
    ensures { result ≡ attractor_of kind }
{
    match kind {
        LfoType::Lorenz => Attractor::Lorenz,
        _ => Attractor::Rossler,
    }
}

// An attractor, `steps` Heun steps of `h` on.
#[tactic(auto, unfolding(crate::specs::Generate::chaotic_at))]
fn chaotic(attractor: Attractor, h: f32, steps: u32, s: Source, kept: Kept) -> Generated
    ensures { result ≡ chaotic_at attractor h steps s kept }
{
    let chaos = chaos::advance(attractor, s.chaos, h, steps);
    Generated {
        source: Source { chaos, ..s },
        kept,
        x: chaos::output(attractor, chaos.x),
        y: 0.0,
    }
}

// The sample at the count c.
pub fn generate(
    settings: Settings,
    block: Block,
    s: Source,
    kept: Kept,
    curve: CurveView,
    c: f64,
) -> Generated
    requires { Searchable settings.kind (curve_of curve) × KeptFor settings.kind (curve_of curve) kept }
    ensures { Generates settings.kind settings.mode settings.direction (curve_of curve.entry) block s c result }
{
    match settings.kind {
        // One call of `place`, which is inlined so: with one for each type a frame takes 2.3 ns more of Drawn and 1.3 of Path.
        LfoType::Drawn | LfoType::Path => {
            let p = place(settings, curve.from, c);
            match settings.kind {
                LfoType::Path => traced(s, kept, curve, p),
                _ => drawn(s, kept, curve, p),
            }
        }
        LfoType::Lorenz | LfoType::Rossler => chaotic(
            attractor_of(settings.kind),
            step(settings.mode, c, block.chaos_h),
            block.chaos_steps,
            s,
            kept,
        ),
        LfoType::SampleAndHold => held(s, kept, cycle(settings.mode, c)),
    }
}
