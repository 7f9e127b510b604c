// Playing a block.
ghost use Rattle.std.specs.Prelude.{◌≡◌};
ghost use Rattle.calls.specs.Blocks.{pending_of};
ghost use Rattle.player.specs.Player.{Valid};
ghost use Rattle.player.specs.Promises.{Plays};

use super::{Played, Player};
use bank::Rendered;
use codes::{RestartCodes, TransportCodes};
use questions::Question;
use settings::Transport;
use voice::CurveView;

// The restart that a block carries, if any.
#[tactic(auto, unfolding(calls::specs::Blocks::pending_of))]
fn pending(c: RestartCodes) -> Option<usize>
    ensures { result ≡ pending_of c }
{
    if c.code == 1 {
        return Some(c.frame as usize);
    }
    None
}

// Plays a block of `frames` frames from the transport at its first sample into the first of x and y, restarting the voice where `restart` says: the block is that of
// `process_scalar` of lfo/bank.rs. What is lent is copied to locals first, since a parameter that is lent is copied whole.
pub fn play(
    p: Player,
    t: TransportCodes,
    frames: u64,
    restart: RestartCodes,
    x: &mut [f32],
    y: &mut [f32],
) -> Result<Played, Question>
    requires { Valid p }
    ensures { Plays p t frames restart x.old y.old result x.new y.new }
{
    let mut deck = p.deck;
    questions::block_answer(deck.played, t, frames, restart, x.len(), y.len())?;
    let transport = Transport::from_codes(t).ok_or(Question::Known)?;
    let settings = p.page.settings;
    let lists = p.page.lists;
    let times = p.page.path.times;
    let curve = CurveView {
        xs: &lists.xs,
        ys: &lists.ys,
        es: &lists.es,
        steps: &lists.steps,
        n: slot::point_count(settings.kind, p.page.shape.len, p.page.path.len),
        times: &times,
        closed: p.page.path.closed,
        from: slot::loop_point(settings.kind, p.page.shape.loopback, &lists.xs),
    };
    let prepared = clock::prepare(settings, deck.clock, transport, frames);
    let r = bank::render_parts(
        settings,
        prepared.block,
        curve,
        Rendered {
            voice: deck.voice,
            kept: deck.kept,
            count: 0.0,
        },
        pending(restart),
        frames as usize,
        x,
        y,
    );
    deck.clock = prepared.clock;
    deck.voice = r.voice;
    deck.kept = r.kept;
    deck.played = deck.played + frames;
    let finished = position::finished(settings, curve.from, r.count);
    Ok(Played { finished, deck })
}
