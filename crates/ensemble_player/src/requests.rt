// Asking for a restart.
ghost use Rattle.std.specs.Prelude.{◌≡◌};
ghost use Rattle.ensemble_calls.specs.Ensembles.{greatest};
ghost use Rattle.ensemble_calls.specs.Calls as call;
ghost use Rattle.ensemble_player.specs.Ensembles.{Valid, asked_member};
ghost use Rattle.ensemble_player.specs.Promises.{Changes};

use super::{Decks, Ensemble};
use ensemble::Member;
use questions::Question;

// The greater of the frames asked for.
#[tactic(auto, unfolding(ensemble_calls::specs::Ensembles::greatest))]
fn greater(asked: Option<usize>, at: usize) -> Option<usize>
    ensures { result ≡ greatest asked at }
{
    match asked {
        None => Some(at),
        Some(k) => Some(k.max(at)),
    }
}

// A voice that is asked to restart at this frame of its next block.
fn asked_member(m: Member, at: usize) -> Member
    ensures { result ≡ asked_member m at }
{
    Member {
        pending: Some(at),
        ..m
    }
}

// Asks voice v to restart at frame `at` of the next block, over what was asked of it before.
pub fn trigger(e: Ensemble, v: u64, at: u64) -> Result<Ensemble, Question>
    requires { Valid e }
    ensures { Changes e (call.trigger v at) result }
{
    ensemble_questions::trigger_answer(e.count, v)?;
    let k = v as usize;
    let frame = at as usize;
    let mut members = e.decks.members;
    members[k] = asked_member(members[k], frame);
    let decks = Decks {
        server: e.decks.server,
        asked: greater(e.decks.asked, frame),
        members,
    };
    Ok(Ensemble { decks, ..e })
}
