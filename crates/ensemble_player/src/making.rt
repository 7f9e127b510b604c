// Making an ensemble.
ghost use Rattle.std.specs.Prelude.{◌≡◌, ◌+◌, ◌^◌, ◌<◌};
ghost use Rattle.listlaws.specs.Tables.{tabulate};
ghost use Rattle.calls.specs.Calls as calls;
ghost use Rattle.player.specs.Player as players;
ghost use Rattle.ensemble_calls.specs.Ensembles.{seed_of};
ghost use Rattle.ensemble_calls.specs.Calls.{count_for, made};
ghost use Rattle.ensemble_player.specs.Ensembles.{state_of, Valid, new_member};
ghost use Rattle.ensemble_player.specs.Promises.{Makes};

use super::{Decks, Ensemble, MAX_VOICES};
use codes::SettingsCodes;
use ensemble::Member;
use player::Player;
use questions::Question;
use voice::Voice;

// The seed of voice `index`, as `Lfo::voice` of lfo/mod.rs has it.
fn seed_of(seed: u64, index: u64) -> u64
    requires { index + 1 < 2 ^ 64 }
    ensures { result ≡ seed_of seed index }
{
    seed.wrapping_add((index + 1).wrapping_mul(0x9E37_79B9_7F4A_7C15))
}

// A voice just made.
fn new_member(seed: u64) -> Member
    ensures { result ≡ new_member seed }
{
    Member {
        voice: Voice::new(seed),
        pending: None,
        finished: false,
    }
}

// The voices 0, 1, .. of an ensemble.
fn new_members(seed: u64) -> [Member; MAX_VOICES]
    ensures { result ≡ tabulate (λ v. new_member (seed_of seed v)) 16 }
{
    let mut members = [new_member(0); MAX_VOICES];
    for (v, m) in members.iter_mut().enumerate() {
        *m = new_member(seed_of(seed, v as u64));
    }
    members
}

// The number of voices: where it is refused, two.
#[tactic(auto, unfolding(ensemble_calls::specs::Calls::count_for))]
fn count_for(count: u64) -> usize
    ensures { result ≡ count_for count }
{
    if count < 2 {
        return 2;
    }
    if count > 16 {
        return 2;
    }
    count as usize
}

// The player of the serving voice, whatever the codes: of default settings where they are refused.
fn server_for(c: SettingsCodes, seed: u64) -> Player
    ensures state { players.state_of result ≡ calls.made c seed }
    ensures valid { players.Valid result }
{
    match player::make(c, seed) {
        Ok(p) => p,
        Err(_) => player::default_player(seed),
    }
}

// An ensemble for whoever has to have one, whatever the codes: of default settings where they are refused, of two voices where their number is.
pub fn ensemble_of(c: SettingsCodes, shared: u64, count: u64, seed: u64) -> Ensemble
    ensures state { state_of result ≡ made c shared count seed }
    ensures valid { Valid result }
{
    let server_seed = seed_of(seed, 0xFFFF_FFFF_FFFF_FFFE);
    let server = server_for(c, server_seed);
    Ensemble {
        page: server.page,
        shared: shared == 1,
        count: count_for(count),
        decks: Decks {
            server: server.deck,
            asked: None,
            members: new_members(seed),
        },
    }
}

// Makes an ensemble of `count` voices with these settings, their random values from `seed`.
pub fn make(c: SettingsCodes, shared: u64, count: u64, seed: u64) -> Result<Ensemble, Question>
    ensures { Makes c shared count seed result }
{
    ensemble_questions::make_answer(c, shared, count)?;
    Ok(ensemble_of(c, shared, count, seed))
}
