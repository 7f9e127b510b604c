// A run of calls: its bytes are read, its calls are made one by one, and what they give is written (docs/RUN.md). It knows neither what is played nor its calls.
#![tactic(auto)]

mod by_value;
pub mod in_place;
mod writing;

ghost use Rattle.std.specs.Prelude.{◌≡◌, ◌≤◌, List, length, get_or, Some, IfSome};
ghost use Rattle.fields.specs.Parser.{Parser};
ghost use Rattle.outputs.specs.Output.{Calling, Runs, none, tagged};
ghost use Rattle.run_calls.specs.Turns.{turn_of, behind, given_of, Turns, TurnsOn, TurnsInPlace, Begins, Makes, Finishes};

use fields::Fault;
use in_place::CallsInPlace;
pub use writing::{flag, malformed, say, say_change, say_number, say_value};

// Where a run goes on: from where in its bytes, and with what is played.
#[derive(Clone, Copy)]
pub struct Next<P> {
    pub at: usize,
    pub player: P,
}

// Where the output goes on after a call's numbers were written, or where it ends.
#[derive(Clone, Copy)]
pub enum Went {
    On(usize),
    Ended(usize),
}

// How it goes on after numbers were written, of making or of a call: from where in the output, and where the run goes on, unless the output ends there.
#[derive(Clone, Copy)]
pub struct Turn<P> {
    pub place: usize,
    pub next: Option<Next<P>>,
}

impl Went {
    // Where the output goes on, the run goes on at `next`.
    pub fn turn<P: Copy>(self, next: Option<Next<P>>) -> Turn<P>
        ensures { result ≡ turn_of self next }
    {
        match self {
            Went::On(place) => Turn { place, next },
            Went::Ended(place) => Turn { place, next: None },
        }
    }
}

// The calls of one kind of run: how what is played is made, and how a call is read and made. `calling` says what they give. A call takes what is played by value, and hands on
// what is played behind it. What has these calls has those of `in_place::CallsInPlace` too (src/by_value.rt), and runs by them.
pub trait Calls {
    // What is played.
    type Player: Copy;

    ghost Making: { Type 0 };

    ghost State: { Type 0 };

    ghost Call: { Type 0 };

    ghost calling: { Calling Making State Call };

    // the call at each tag
    ghost by_tag: { List (Parser Call) };

    ghost state_of: { Self.Player → State };

    ghost Valid: { Self.Player → Type 0 };

    // The run's first bytes make what is played. "Where making is refused the output ends after its number."
    fn make(run: &[u8], out: &mut [u8]) -> Result<Turn<Self::Player>, Fault>
        ensures { Makes calling state_of Valid run.now out.old result out.new };

    // One call, whose tag was read.
    fn call(
        run: &[u8],
        tag: u64,
        from: Next<Self::Player>,
        out: &mut [u8],
        place: usize,
    ) -> Result<Turn<Self::Player>, Fault>
        requires { Valid from.player }
        ensures { TurnsOn calling state_of Valid (get_or by_tag tag none) run.now from out.old place result out.new };

    ghost asked_is: { calling.asked ≡ tagged by_tag };
}

// The first turn.
fn begin<C: CallsInPlace>(run: &[u8], out: &mut [u8]) -> Turn<C::Player>
    ensures { Begins C.calling C.state_of C.Valid run.now out.old result out.new }
{
    match C::make(run, out) {
        Ok(turn) => turn,
        Err(_) => Turn {
            place: malformed(out, 0),
            next: None,
        },
    }
}

// One call, by its tag.
fn by_tag<C: CallsInPlace>(
    run: &[u8],
    from: &mut Next<C::Player>,
    out: &mut [u8],
    place: usize,
) -> Result<Went, Fault>
    requires { C.Valid from.old.player }
    ensures { TurnsInPlace C.calling C.state_of C.Valid C.calling.asked run.now from.old out.old place result from.new out.new }
{
    let (tag, at) = fields::read_number(run, from.at)?;
    from.at = at;
    C::call(run, tag, from, out, place)
}

// One call.
fn one_call<C: CallsInPlace>(
    run: &[u8],
    from: &mut Next<C::Player>,
    out: &mut [u8],
    place: usize,
) -> Went
    requires { C.Valid from.old.player }
    ensures { Turns C.calling C.state_of C.Valid run.now (given_of C.calling C.state_of from.old.player run.now (C.calling.asked run.now from.old.at)) out.old place (turn_of result (Some from.new)) out.new }
{
    match by_tag::<C>(run, from, out, place) {
        Ok(went) => went,
        Err(_) => Went::Ended(malformed(out, place)),
    }
}

// The calls from `next` on. Each takes a byte or more, so there are no more of them than bytes.
fn calls_from<C: CallsInPlace>(
    run: &[u8],
    mut next: Next<C::Player>,
    out: &mut [u8],
    mut place: usize,
) -> usize
    requires { (place ≤ length out.old) × C.Valid next.player }
    ensures { Finishes (behind C.calling C.state_of run.now (Some next) (length run.now)) out.old place result out.new }
{
    for _ in 0..run.len() {
        if run.len() <= next.at {
            return place;
        }
        match one_call::<C>(run, &mut next, out, place) {
            Went::On(after) => place = after,
            Went::Ended(end) => return end,
        }
    }
    place
}

// The calls from the turn `first` on.
fn finish<C: CallsInPlace>(run: &[u8], first: Turn<C::Player>, out: &mut [u8]) -> usize
    requires { (first.place ≤ length out.old) × IfSome first.next (λ n. C.Valid n.player) }
    ensures { Finishes (behind C.calling C.state_of run.now first.next (length run.now)) out.old first.place result out.new }
{
    let Turn { place, next } = first;
    match next {
        Some(from) => calls_from::<C>(run, from, out, place),
        None => place,
    }
}

// Reads the calls of `run` one by one, makes them, and writes what each gives to `out`. Answers how many bytes it wrote.
pub fn run<C: CallsInPlace>(run: &[u8], out: &mut [u8]) -> u64
    ensures { Runs C.calling run.now out.old result out.new }
{
    let first = begin::<C>(run, out);
    finish::<C>(run, first, out) as u64
}
