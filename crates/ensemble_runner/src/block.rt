// Tag 5: playing a block.
ghost use Rattle.std.specs.Prelude.{◌≡◌, ◌∷◌, map, ◌≤◌, length};
ghost use Rattle.outputs.specs.Numbers.{flag_of, sevens};
ghost use Rattle.ensemble_calls.specs.Calls as Calls;
ghost use Rattle.ensemble_player.specs.Ensembles.{Valid};
ghost use Rattle.ensemble_runner.specs.Asked.{block_call};
ghost use Rattle.ensemble_runner.specs.Promises.{TurnsOn, TurnsBy};

use codes::TransportCodes;
use ensemble_player::Ensemble;
use fields::Fault;
use run_calls::{Next, Went, flag, say};

// The most elements of a buffer.
const MOST: usize = 65600;

// A buffer's length is below this.
const LIMIT: u64 = 65601;

// The most voices, and the most numbers before a block's buffers: the answer, and one a voice.
const MAX_VOICES: usize = 16;

const MAX_NUMBERS: usize = 17;

// A block as it is asked for, and the lengths of its buffers.
#[derive(Clone, Copy)]
struct Block {
    transport: TransportCodes,
    frames: u64,
    x_len: usize,
    y_len: usize,
}

// The numbers of a block that is accepted: 0, and then one finished a voice.
fn numbers_of(finished: [bool; MAX_VOICES]) -> [u64; MAX_NUMBERS]
    requires { length finished ≡ 16 }
    ensures { result ≡ 0 ∷ map flag_of finished }
{
    let mut numbers = [0u64; MAX_NUMBERS];
    for v in 0..MAX_VOICES {
        numbers[v + 1] = flag(finished[v]);
    }
    numbers
}

// Plays a block into buffers of 7.0, and writes what it gives.
fn play(b: Block, from: &mut Next<Ensemble>, out: &mut [u8], place: usize) -> Went
    requires { Valid from.old.player × (b.x_len ≤ 65600) × (b.y_len ≤ 65600) }
    ensures { TurnsBy (Calls.block b.transport b.frames (sevens b.x_len) (sevens b.y_len)) from.old out.old place result from.new out.new }
{
    let mut x = [7.0f32; MOST];
    let mut y = [7.0f32; MOST];
    let x = &mut x[..b.x_len];
    let y = &mut y[..b.y_len];
    match ensemble_player::play(from.player, b.transport, b.frames, x, y) {
        Ok(r) => {
            from.player.decks = r.decks;
            let numbers = numbers_of(r.finished);
            say(out, place, &numbers[..1 + from.player.count], x, y)
        }
        Err(q) => say(out, place, &[q.number() as u64], x, y),
    }
}

// Reads a block's bytes, plays it, and writes what it gives.
#[tactic(auto, unfolding(crate::specs::Asked::block_call, fields::specs::Parser::after))]
pub fn block_turn(
    run: &[u8],
    from: &mut Next<Ensemble>,
    out: &mut [u8],
    place: usize,
) -> Result<Went, Fault>
    requires { Valid from.old.player }
    ensures { TurnsOn block_call run.now from.old out.old place result from.new out.new }
{
    let (transport, at) = runs::read_transport(run, from.at)?;
    let (frames, at) = fields::read_number(run, at)?;
    let (x_len, at) = fields::read_below(run, at, LIMIT)?;
    let (y_len, at) = fields::read_below(run, at, LIMIT)?;
    let block = Block {
        transport,
        frames,
        x_len: x_len as usize,
        y_len: y_len as usize,
    };
    from.at = at;
    Ok(play(block, from, out, place))
}
