// Runs of a number that is held: the smallest kind of run, of calls that take what is played by value.
#![tactic(auto)]

#[cfg(test)]
mod tests;

ghost use Rattle.std.specs.Prelude.{ℕ, refl, get_or};
ghost use Rattle.outputs.specs.Output.{Runs, none};
ghost use Rattle.run_calls.specs.Turns.{Makes, TurnsOn};
ghost use Rattle.held.specs.Held.{held, by_tag, state_of, Valid};

use fields::Fault;
use run_calls::{Calls, Next, Turn, say_number};

// Runs on a number that is held.
pub struct Held;

impl Calls for Held {
    type Player = u64;

    ghost Making = { ℕ };

    ghost State = { ℕ };

    ghost Call = { ℕ };

    ghost calling = { held };

    ghost by_tag = { by_tag };

    ghost state_of = { state_of };

    ghost Valid = { Valid };

    fn make(run: &[u8], out: &mut [u8]) -> Result<Turn<u64>, Fault>
        ensures { Makes held state_of Valid run.now out.old result out.new }
    {
        let (player, at) = fields::read_number(run, 0)?;
        Ok(say_number(out, 0, 0).turn(Some(Next { at, player })))
    }

    fn call(
        run: &[u8],
        tag: u64,
        from: Next<u64>,
        out: &mut [u8],
        place: usize,
    ) -> Result<Turn<u64>, Fault>
        ensures { TurnsOn held state_of Valid (get_or by_tag tag none) run.now from out.old place result out.new }
    {
        match tag {
            0 => {
                let (player, at) = fields::read_number(run, from.at)?;
                Ok(say_number(out, place, from.player).turn(Some(Next { at, player })))
            }
            _ => Err(Fault::BadNumber), // a tag of no call
        }
    }

    ghost asked_is = { refl };
}

// A run on a number that is held.
pub fn run(run: &[u8], out: &mut [u8]) -> u64
    ensures { Runs held run.now out.old result out.new }
{
    run_calls::run::<Held>(run, out)
}
