// Playing a block.
ghost use Rattle.std.specs.Prelude.{◌≡◌, ◌≤◌, true, false, map, length, take};
ghost use Rattle.listlaws.specs.Tables.{padded};
ghost use Rattle.ensemble_calls.specs.AsPlayer.{restart_codes};
ghost use Rattle.ensemble_player.specs.Ensembles.{Valid, idle_member};
ghost use Rattle.ensemble_player.specs.Plays.{Plays, Ready, ReadyAt, PlaysBlock};
ghost use Rattle.settings.specs.declared.record.Transport.{Transport};
ghost use Rattle.settings.specs.Codes.{transport_at};

use super::{Decks, Ensemble, MAX_VOICES, Played, server_of};
use codes::{RestartCodes, TransportCodes};
use ensemble::Member;
use questions::Question;
use settings::Transport;

// The most frames of a block.
const MAX_FRAMES: usize = 4096;

// A restart as a player's block carries it.
#[tactic(auto, unfolding(ensemble_calls::specs::AsPlayer::restart_codes))]
fn restart_codes(at: Option<usize>) -> RestartCodes
    ensures { result ≡ restart_codes at }
{
    match at {
        None => RestartCodes { code: 0, frame: 0 },
        Some(k) => RestartCodes {
            code: 1,
            frame: k as u64,
        },
    }
}

// A voice for which another has played: no restart waits.
fn idle_member(m: Member, finished: bool) -> Member
    ensures { result ≡ idle_member finished m }
{
    Member {
        voice: m.voice,
        pending: None,
        finished,
    }
}

fn idle_members(mut list: [Member; MAX_VOICES], finished: bool) -> [Member; MAX_VOICES]
    requires { length list ≡ 16 }
    ensures { result ≡ map (idle_member finished) list }
{
    for m in list.iter_mut() {
        *m = idle_member(*m, finished);
    }
    list
}

// Whether each of these voices has finished.
fn finished_of(voices: &[Member]) -> [bool; MAX_VOICES]
    requires { length voices.now ≤ 16 }
    ensures { result ≡ padded 16 false (map (λ m. m.finished) voices.now) }
{
    let mut out = [false; MAX_VOICES];
    for (v, m) in voices.iter().enumerate() {
        out[v] = m.finished;
    }
    out
}

// A block in which the serving voice plays for all.
fn play_shared(e: Ensemble, t: TransportCodes, frames: u64, x: &mut [f32], y: &mut [f32]) -> Decks
    requires { Ready e t frames x.old y.old × (e.shared ≡ true) }
    ensures { (u : Transport) → transport_at t ≡ Some u → PlaysBlock e u frames x.old y.old result x.new y.new }
{
    let restart = restart_codes(e.decks.asked);
    let mut xs = [0.0f32; MAX_FRAMES];
    let mut ys = [0.0f32; MAX_FRAMES];
    let r = player::play(server_of(e), t, frames, restart, &mut xs, &mut ys).unwrap();
    let n = frames as usize;
    columns::spread(&xs[..n], e.count, x);
    columns::spread(&ys[..n], e.count, y);
    let members = idle_members(e.decks.members, r.finished);
    Decks {
        server: r.deck,
        asked: None,
        members,
    }
}

// A block in which each voice plays for itself.
fn play_apart(e: Ensemble, t: Transport, frames: usize, x: &mut [f32], y: &mut [f32]) -> Decks
    requires { ReadyAt e t frames x.old y.old × (e.shared ≡ false) }
    ensures { PlaysBlock e t frames x.old y.old result x.new y.new }
{
    let mut server = e.decks.server;
    let prepared = clock::prepare(e.page.settings, server.clock, t, frames as u64);
    let all = ensemble::block_page(e.page, prepared.block, frames, e.count);
    let members = ensemble::play_members(e.decks.members, all, x, y);
    server.clock = prepared.clock;
    server.played = server.played + frames as u64;
    Decks {
        server,
        asked: None,
        members,
    }
}

// Plays a block of `frames` frames from the transport at its first sample into the first of x and y, frame by frame one value of each voice.
pub fn play(
    e: Ensemble,
    t: TransportCodes,
    frames: u64,
    x: &mut [f32],
    y: &mut [f32],
) -> Result<Played, Question>
    requires { Valid e }
    ensures { Plays e t frames x.old y.old result x.new y.new }
{
    let played = e.decks.server.played;
    ensemble_questions::play_answer(e.count, played, t, frames, x.len(), y.len())?;
    let transport = Transport::from_codes(t).ok_or(Question::Known)?;
    let decks = if e.shared {
        play_shared(e, t, frames, x, y)
    } else {
        play_apart(e, transport, frames as usize, x, y)
    };
    let finished = finished_of(&decks.members[..e.count]);
    Ok(Played { finished, decks })
}
