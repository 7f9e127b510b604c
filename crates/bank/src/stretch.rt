// A stretch of frames of one voice.
ghost use Rattle.voice.specs.Curve.{curve_of};
ghost use Rattle.bank.specs.Render.{Stretch, Renders};

use clock::Block;
use settings::Settings;
use voice::{CurveView, Kept, Voice};

// The voice and the kept segments after a stretch, and the cycle count of its last frame; at first 0.
#[derive(Clone, Copy)]
pub struct Rendered {
    pub voice: Voice,
    pub kept: Kept,
    pub count: f64,
}

// Plays `count` frames more, from sample `from` of the block on.
// x and y are no struct: with a `&mut` in a struct each clause on it would name that reference (`ghost_name`). Settings, block and curve are none: each clause names them
// one by one, so a struct of the three would lengthen it.
pub fn render(
    s: Settings,
    block: Block,
    curve: CurveView,
    mut r: Rendered,
    from: usize,
    count: usize,
    x: &mut [f32],
    y: &mut [f32],
) -> Rendered
    requires { Stretch s (curve_of curve) block r.voice r.kept from count x.old y.old }
    ensures { Renders s (curve_of curve.entry) block r.voice r.count from count x.old y.old result x.new y.new }
{
    // Over `from..from + count` a frame takes 0.4 ns more of Drawn and 0.6 of Path.
    for j in 0..count {
        let k = from + j;
        r.count = voice::count(s.mode, block, r.voice.anchor, k as u64);
        r.voice.anchor = r.voice.anchor.next();
        let g = voice::generate(s, block, r.voice.source, r.kept, curve, r.count);
        r.voice.source = g.source;
        r.kept = g.kept;
        let p = voice::put(s.kind, block.smooth, r.voice.output, g.x, g.y);
        r.voice.output = p.output;
        x[k] = p.x;
        y[k] = p.y;
    }
    r
}
