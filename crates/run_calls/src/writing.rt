// A call's numbers, written.
ghost use Rattle.std.specs.Prelude.{◌≡◌, ◌≤◌, ◌∷◌, [], length};
ghost use Rattle.std.specs.Result.{result_unwrap_or};
ghost use Rattle.questions.specs.Answers.{answer_of, result_answer, one_value};
ghost use Rattle.replies.specs.Replies.{listed};
ghost use Rattle.outputs.specs.Numbers.{flag_of, answer_numbers};
ghost use Rattle.run_calls.specs.Turns.{Says, Ends};

use super::{Next, Went};
use questions::Question;

// Numbers and then the bits of two lists of floats. Where they have no room nothing is written and the output ends.
pub fn say(out: &mut [u8], place: usize, numbers: &[u64], x: &[f32], y: &[f32]) -> Went
    requires { (length numbers.now ≤ 65600) × (length x.now ≤ 65600) × (length y.now ≤ 65600) }
    ensures { Says out.old place (listed numbers.now x.now y.now) result out.new }
{
    match replies::write_lists(out, place, numbers, x, y) {
        Some(after) => Went::On(after),
        None => Went::Ended(place),
    }
}

// No as 0, yes as 1.
pub fn flag(b: bool) -> u64
    ensures { result ≡ flag_of b }
{
    if b { 1 } else { 0 }
}

// One number.
pub fn say_number(out: &mut [u8], place: usize, n: u64) -> Went
    ensures { Says out.old place (n ∷ []) result out.new }
{
    say(out, place, &[n], &[], &[])
}

// "Where the bytes of a call are malformed, the output ends with the number 255".
const MALFORMED: u64 = 255;

// Answers where the output ends.
pub fn malformed(out: &mut [u8], place: usize) -> usize
    ensures { Ends out.old place (255 ∷ []) result out.new }
{
    match say_number(out, place, MALFORMED) {
        Went::On(end) => end,
        Went::Ended(end) => end,
    }
}

// The number of a call that sets something: it gives what is played after it, and where it is refused that stays.
pub fn say_change<P: Copy>(
    r: Result<P, Question>,
    from: &mut Next<P>,
    out: &mut [u8],
    place: usize,
) -> Went
    ensures says { Says out.old place (answer_of r ∷ []) result out.new }
    ensures changed { from.new ≡ record from.old { player = result_unwrap_or r from.old.player } }
{
    let n = questions::number_of(&r) as u64;
    if let Ok(player) = r {
        from.player = player;
    }
    say_number(out, place, n)
}

// The number of a call that leaves what is played as it is, and where it is 0 the bits of its value.
pub fn say_value(r: Result<f32, Question>, out: &mut [u8], place: usize) -> Went
    ensures { Says out.old place (answer_numbers (result_answer one_value r)) result out.new }
{
    match r {
        Ok(value) => say(out, place, &[0], &[value], &[]),
        Err(q) => say_number(out, place, q.number() as u64),
    }
}
