// Tag 8: the legs of a path.
ghost use Rattle.evaluate.specs.Values.{evaluated_legs};
ghost use Rattle.player.specs.Player.{Valid};
ghost use Rattle.run_calls.specs.Turns.{Says};
ghost use Rattle.runner.specs.Asked.{legs_call};
ghost use Rattle.runner.specs.Numbers.{legs_numbers};
ghost use Rattle.runner.specs.Promises.{TurnsOn};

use codes::PathCodes;
use fields::Fault;
use player::Player;
use run_calls::{Next, Went, say, say_number};

// Evaluates the legs of a path, and writes what that gives.
fn measure(c: PathCodes, out: &mut [u8], place: usize) -> Went
    ensures { Says out.old place (legs_numbers (evaluated_legs c)) result out.new }
{
    match evaluate::evaluate_legs(c) {
        Ok(r) => {
            let numbers = [0, r.count as u64];
            say(out, place, &numbers, &r.lengths[..r.count], &[])
        }
        Err(q) => say_number(out, place, q.number() as u64),
    }
}

// Reads a path's bytes, evaluates its legs, and writes what that gives.
#[tactic(auto, unfolding(crate::specs::Asked::legs_call, fields::specs::Parser::after))]
pub fn legs_turn(
    run: &[u8],
    from: &mut Next<Player>,
    out: &mut [u8],
    place: usize,
) -> Result<Went, Fault>
    requires { Valid from.old.player }
    ensures { TurnsOn legs_call run.now from.old out.old place result from.new out.new }
{
    let (codes, at) = runs::read_path(run, from.at)?;
    from.at = at;
    Ok(measure(codes, out, place))
}
