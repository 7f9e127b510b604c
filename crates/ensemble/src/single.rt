// A block of one voice of an ensemble, by value.
ghost use Rattle.ensemble.specs.Ensemble.{Ready, Plays};

use super::{BlockPage, Member};
use bank::Rendered;
use voice::{CurveView, Kept};

// The most frames of a block.
const MAX_FRAMES: usize = 4096;

// Plays the block of voice v into its column of x and y. The segments kept are the block's own. What is lent is copied to locals first, since a
// parameter that is lent is copied whole.
pub fn played(p: BlockPage, m: Member, v: usize, x: &mut [f32], y: &mut [f32]) -> Member
    requires { Ready p m v x.old y.old }
    ensures { Plays p m v x.old y.old result x.new y.new }
{
    let lists = p.lists;
    let times = p.times;
    let curve = CurveView {
        xs: &lists.xs,
        ys: &lists.ys,
        es: &lists.es,
        steps: &lists.steps,
        n: p.n,
        times: &times,
        closed: p.closed,
        from: p.loopback,
    };
    let mut xs = [0.0f32; MAX_FRAMES];
    let mut ys = [0.0f32; MAX_FRAMES];
    let r = bank::render_parts(
        p.settings,
        p.block,
        curve,
        Rendered {
            voice: m.voice,
            kept: Kept::void(),
            count: 0.0,
        },
        m.pending,
        p.frames,
        &mut xs,
        &mut ys,
    );
    columns::scatter(&xs[..p.frames], v, p.voices, x);
    columns::scatter(&ys[..p.frames], v, p.voices, y);
    Member {
        voice: r.voice,
        pending: None,
        finished: position::finished(p.settings, p.loopback, r.count),
    }
}
