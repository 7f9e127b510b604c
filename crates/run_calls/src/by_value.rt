// Calls that take what is played by value, as calls that change it in its place.
ghost use Rattle.std.specs.Prelude.{get_or};
ghost use Rattle.outputs.specs.Output.{none};
ghost use Rattle.run_calls.specs.Turns.{TurnsInPlace, Makes};

use super::in_place::CallsInPlace;
use super::{Calls, Next, Turn, Went};
use fields::Fault;

impl<C: Calls> CallsInPlace for C {
    type Player = C::Player;

    ghost Making = { C.Making };

    ghost State = { C.State };

    ghost Call = { C.Call };

    ghost calling = { C.calling };

    ghost by_tag = { C.by_tag };

    ghost state_of = { C.state_of };

    ghost Valid = { C.Valid };

    fn make(run: &[u8], out: &mut [u8]) -> Result<Turn<C::Player>, Fault>
        ensures { Makes C.calling C.state_of C.Valid run.now out.old result out.new }
    {
        <C as Calls>::make(run, out)
    }

    fn call(
        run: &[u8],
        tag: u64,
        from: &mut Next<C::Player>,
        out: &mut [u8],
        place: usize,
    ) -> Result<Went, Fault>
        requires { C.Valid from.old.player }
        ensures { TurnsInPlace C.calling C.state_of C.Valid (get_or C.by_tag tag none) run.now from.old out.old place result from.new out.new }
    {
        let Turn { place, next } = <C as Calls>::call(run, tag, *from, out, place)?;
        match next {
            Some(next) => {
                *from = next;
                Ok(Went::On(place))
            }
            None => Ok(Went::Ended(place)),
        }
    }

    ghost asked_is = { C.asked_is };
}
