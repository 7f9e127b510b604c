// Tag 5: playing a block.
ghost use Rattle.std.specs.Prelude.{◌≤◌};
ghost use Rattle.outputs.specs.Numbers.{sevens};
ghost use Rattle.player.specs.Player.{Valid};
ghost use Rattle.runner.specs.Asked.{block_asked, block_call};
ghost use Rattle.runner.specs.Promises.{TurnsOn, TurnsBy};

use codes::{RestartCodes, TransportCodes};
use fields::Fault;
use player::Player;
use run_calls::{Next, Went, flag, say};

// The most elements of a buffer.
const MOST: usize = 8192;

// A buffer's length is below this.
const LIMIT: u64 = 8193;

// A block as it is asked for, and the lengths of its buffers.
#[derive(Clone, Copy)]
struct Block {
    transport: TransportCodes,
    frames: u64,
    restart: RestartCodes,
    x_len: usize,
    y_len: usize,
}

// Plays a block into buffers of 7.0, and writes what it gives.
fn play(b: Block, from: &mut Next<Player>, out: &mut [u8], place: usize) -> Went
    requires { Valid from.old.player × (b.x_len ≤ 8192) × (b.y_len ≤ 8192) }
    ensures { TurnsBy (block_asked b.transport b.frames b.restart (sevens b.x_len) (sevens b.y_len)) from.old out.old place result from.new out.new }
{
    let mut x = [7.0f32; MOST];
    let mut y = [7.0f32; MOST];
    let x = &mut x[..b.x_len];
    let y = &mut y[..b.y_len];
    match player::play(from.player, b.transport, b.frames, b.restart, x, y) {
        Ok(r) => {
            from.player.deck = r.deck;
            let numbers = [0, flag(r.finished)];
            say(out, place, &numbers, x, y)
        }
        Err(q) => say(out, place, &[q.number() as u64], x, y),
    }
}

// Reads a block's bytes, plays it, and writes what it gives.
#[tactic(auto, unfolding(crate::specs::Asked::block_call, fields::specs::Parser::after))]
pub fn block_turn(
    run: &[u8],
    from: &mut Next<Player>,
    out: &mut [u8],
    place: usize,
) -> Result<Went, Fault>
    requires { Valid from.old.player }
    ensures { TurnsOn block_call run.now from.old out.old place result from.new out.new }
{
    let (transport, at) = runs::read_transport(run, from.at)?;
    let (frames, at) = fields::read_number(run, at)?;
    let (restart, at) = runs::read_restart(run, at)?;
    let (x_len, at) = fields::read_below(run, at, LIMIT)?;
    let (y_len, at) = fields::read_below(run, at, LIMIT)?;
    let block = Block {
        transport,
        frames,
        restart,
        x_len: x_len as usize,
        y_len: y_len as usize,
    };
    from.at = at;
    Ok(play(block, from, out, place))
}
