// Reading the phase of a voice.
ghost use Rattle.std.specs.Prelude.{◌≡◌};
ghost use Rattle.questions.specs.Answers.{result_answer, one_value};
ghost use Rattle.ensemble_player.specs.Ensembles.{Valid, state_of, voice_player};
ghost use Rattle.ensemble_player.specs.Readings.{voice_phase_answer};

use super::{Ensemble, server_of};
use codes::TransportCodes;
use player::{Deck, Player};
use questions::Question;
use voice::Voice;

// A voice as a player, on the page of all.
fn voice_player(server: Player, voice: Voice) -> Player
    ensures { result ≡ voice_player server voice }
{
    Player {
        page: server.page,
        deck: Deck {
            voice,
            ..server.deck
        },
    }
}

// Where voice v is in its cycle, 0 up to 1, at the next sample to play; with shared on, where the serving voice is. No ensemble changes.
pub fn phase(e: Ensemble, v: u64, t: TransportCodes) -> Result<f32, Question>
    requires { Valid e }
    ensures { result_answer one_value result ≡ voice_phase_answer (state_of e) v t }
{
    ensemble_questions::voice_phase_answer(e.count, v, t)?;
    let server = server_of(e);
    if e.shared {
        return player::phase(server, t);
    }
    let voice = e.decks.members[v as usize].voice;
    player::phase(voice_player(server, voice), t)
}
