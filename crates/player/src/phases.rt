// Reading the phase.
ghost use Rattle.std.specs.Prelude.{◌≡◌};
ghost use Rattle.questions.specs.Answers.{result_answer, one_value};
ghost use Rattle.player.specs.Player.{state_of};
ghost use Rattle.player.specs.Readings.{phase_answer};

use super::Player;
use codes::TransportCodes;
use questions::Question;
use settings::Transport;

// Where the voice is in its cycle, 0 up to 1, at the next sample to play; `t` is the transport at that sample. No player changes.
pub fn phase(p: Player, t: TransportCodes) -> Result<f32, Question>
    ensures { result_answer one_value result ≡ phase_answer (state_of p) t }
{
    questions::phase_answer(t)?;
    let transport = Transport::from_codes(t).ok_or(Question::Known)?;
    Ok(clock::phase(
        p.page.settings,
        p.deck.clock,
        p.deck.voice.anchor,
        transport,
    ))
}
