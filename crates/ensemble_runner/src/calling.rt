// The calls of a run: making an ensemble, and one call, by its tag.
ghost use Rattle.std.specs.Prelude.{ℕ, refl, get_or};
ghost use Rattle.codes.specs.declared.SettingsCodes.{SettingsCodes};
ghost use Rattle.outputs.specs.Output.{none};
ghost use Rattle.run_calls.specs.Turns.{Makes};
ghost use Rattle.ensemble_calls.specs.Ensembles.{EnsembleState};
ghost use Rattle.ensemble_calls.specs.Calls.{Call};
ghost use Rattle.ensemble_player.specs.Ensembles.{state_of, Valid};
ghost use Rattle.ensemble_runner.specs.Asked.{by_tag};
ghost use Rattle.ensemble_runner.specs.Output.{ensembles};
ghost use Rattle.ensemble_runner.specs.Promises.{TurnsOn};

use super::block::block_turn;
use super::edits::{bus_turn, path_turn, settings_turn, shape_turn, trigger_turn};
use super::values::phase_turn;
use ensemble_player::Ensemble;
use fields::Fault;
use run_calls::in_place::CallsInPlace;
use run_calls::{Next, Turn, Went, say_number};

// Runs on an ensemble. The clauses of `make` and `call` stand here too: the check gives a method none of its trait's.
pub struct Ensembles;

impl CallsInPlace for Ensembles {
    type Player = Ensemble;

    ghost Making = { SettingsCodes × ℕ × ℕ × ℕ };

    ghost State = { EnsembleState };

    ghost Call = { Call };

    ghost calling = { ensembles };

    ghost by_tag = { by_tag };

    ghost state_of = { state_of };

    ghost Valid = { Valid };

    #[tactic(auto, unfolding(crate::specs::Asked::make, fields::specs::Parser::after))]
    fn make(run: &[u8], out: &mut [u8]) -> Result<Turn<Ensemble>, Fault>
        ensures { Makes ensembles state_of Valid run.now out.old result out.new }
    {
        let (codes, at) = runs::read_settings(run, 0)?;
        let (shared, at) = fields::read_number(run, at)?;
        let (count, at) = fields::read_number(run, at)?;
        let (seed, at) = fields::read_number(run, at)?;
        match ensemble_player::make(codes, shared, count, seed) {
            Ok(player) => Ok(say_number(out, 0, 0).turn(Some(Next { at, player }))),
            Err(q) => Ok(say_number(out, 0, q.number() as u64).turn(None)),
        }
    }

    #[tactic(auto, unfolding(crate::specs::Asked::by_tag))]
    fn call(
        run: &[u8],
        tag: u64,
        from: &mut Next<Ensemble>,
        out: &mut [u8],
        place: usize,
    ) -> Result<Went, Fault>
        requires { Valid from.old.player }
        ensures { TurnsOn (get_or by_tag tag none) run.now from.old out.old place result from.new out.new }
    {
        match tag {
            0 => settings_turn(run, from, out, place),
            1 => shape_turn(run, from, out, place),
            2 => path_turn(run, from, out, place),
            3 => bus_turn(run, from, out, place),
            4 => phase_turn(run, from, out, place),
            5 => block_turn(run, from, out, place),
            9 => trigger_turn(run, from, out, place),
            _ => Err(Fault::BadNumber), // a tag of no call
        }
    }

    ghost asked_is = { refl };
}
