// The calls of a run: making a player, and one call, by its tag.
ghost use Rattle.std.specs.Prelude.{ℕ, refl, get_or};
ghost use Rattle.codes.specs.declared.SettingsCodes.{SettingsCodes};
ghost use Rattle.calls.specs.State.{State};
ghost use Rattle.outputs.specs.Output.{none};
ghost use Rattle.run_calls.specs.Turns.{Makes};
ghost use Rattle.player.specs.Player.{state_of, Valid};
ghost use Rattle.runner.specs.Asked.{Asked, by_tag};
ghost use Rattle.runner.specs.Output.{players};
ghost use Rattle.runner.specs.Promises.{TurnsOn};

use super::block::block_turn;
use super::edits::{bus_turn, path_turn, settings_turn, shape_turn};
use super::legs::legs_turn;
use super::values::{path_at_turn, phase_turn, shape_at_turn};
use fields::Fault;
use player::Player;
use run_calls::in_place::CallsInPlace;
use run_calls::{Next, Turn, Went, say_number};

// Runs on a player. The clauses of `make` and `call` stand here too: the check gives a method none of its trait's.
pub struct Players;

impl CallsInPlace for Players {
    type Player = Player;

    ghost Making = { SettingsCodes × ℕ };

    ghost State = { State };

    ghost Call = { Asked };

    ghost calling = { players };

    ghost by_tag = { by_tag };

    ghost state_of = { state_of };

    ghost Valid = { Valid };

    #[tactic(auto, unfolding(crate::specs::Output::make, fields::specs::Parser::after))]
    fn make(run: &[u8], out: &mut [u8]) -> Result<Turn<Player>, Fault>
        ensures { Makes players state_of Valid run.now out.old result out.new }
    {
        let (codes, at) = runs::read_settings(run, 0)?;
        let (seed, at) = fields::read_number(run, at)?;
        match player::make(codes, seed) {
            Ok(player) => Ok(say_number(out, 0, 0).turn(Some(Next { at, player }))),
            Err(q) => Ok(say_number(out, 0, q.number() as u64).turn(None)),
        }
    }

    #[tactic(auto, unfolding(crate::specs::Asked::by_tag))]
    fn call(
        run: &[u8],
        tag: u64,
        from: &mut Next<Player>,
        out: &mut [u8],
        place: usize,
    ) -> Result<Went, Fault>
        requires { Valid from.old.player }
        ensures { TurnsOn (get_or by_tag tag none) run.now from.old out.old place result from.new out.new }
    {
        match tag {
            0 => settings_turn(run, from, out, place),
            1 => shape_turn(run, from, out, place),
            2 => path_turn(run, from, out, place),
            3 => bus_turn(run, from, out, place),
            4 => phase_turn(run, from, out, place),
            5 => block_turn(run, from, out, place),
            6 => shape_at_turn(run, from, out, place),
            7 => path_at_turn(run, from, out, place),
            8 => legs_turn(run, from, out, place),
            _ => Err(Fault::BadNumber), // a tag of no call
        }
    }

    ghost asked_is = { refl };
}
