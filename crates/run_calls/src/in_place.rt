// Calls that change what is played in its place. They are in a module of their own, so that whoever imports all of the crate finds one `make` and one `call`.
ghost use Rattle.std.specs.Prelude.{◌≡◌, List, get_or};
ghost use Rattle.fields.specs.Parser.{Parser};
ghost use Rattle.outputs.specs.Output.{Calling, none, tagged};
ghost use Rattle.run_calls.specs.Turns.{TurnsInPlace, Makes};

use super::{Next, Turn, Went};
use fields::Fault;

// The calls of one kind of run, as `Calls` has them, but that a call changes what is played in its place: what is large is not moved.
pub trait CallsInPlace {
    // What is played.
    type Player: Copy;

    ghost Making: { Type 0 };

    ghost State: { Type 0 };

    ghost Call: { Type 0 };

    ghost calling: { Calling Making State Call };

    // the call at each tag
    ghost by_tag: { List (Parser Call) };

    ghost state_of: { Self.Player → State };

    ghost Valid: { Self.Player → Type 0 };

    // The run's first bytes make what is played. "Where making is refused the output ends after its number."
    fn make(run: &[u8], out: &mut [u8]) -> Result<Turn<Self::Player>, Fault>
        ensures { Makes calling state_of Valid run.now out.old result out.new };

    // One call, whose tag was read. It changes what is played in its place.
    fn call(
        run: &[u8],
        tag: u64,
        from: &mut Next<Self::Player>,
        out: &mut [u8],
        place: usize,
    ) -> Result<Went, Fault>
        requires { Valid from.old.player }
        ensures { TurnsInPlace calling state_of Valid (get_or by_tag tag none) run.now from.old out.old place result from.new out.new };

    ghost asked_is: { calling.asked ≡ tagged by_tag };
}
