// Tag 4: the phase of a voice. It leaves the ensemble as it is.
ghost use Rattle.ensemble_player.specs.Ensembles.{Valid};
ghost use Rattle.ensemble_runner.specs.Asked.{phase_call};
ghost use Rattle.ensemble_runner.specs.Promises.{TurnsOn};

use ensemble_player::Ensemble;
use fields::Fault;
use run_calls::{Next, Went, say_value};

// Reads a voice and a transport, and the voice's phase there.
#[tactic(auto, unfolding(crate::specs::Asked::phase_call, fields::specs::Parser::after))]
pub fn phase_turn(
    run: &[u8],
    from: &mut Next<Ensemble>,
    out: &mut [u8],
    place: usize,
) -> Result<Went, Fault>
    requires { Valid from.old.player }
    ensures { TurnsOn phase_call run.now from.old out.old place result from.new out.new }
{
    let (voice, at) = fields::read_number(run, from.at)?;
    let (codes, at) = runs::read_transport(run, at)?;
    from.at = at;
    let phase = ensemble_player::phase(from.player, voice, codes);
    Ok(say_value(phase, out, place))
}
