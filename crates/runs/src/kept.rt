// Values of a kind, of which an array has the first 64.
ghost use Rattle.std.specs.Prelude.{◌≡◌, ℕ, List, replicate};
ghost use Rattle.fields.specs.Parser.{Parser};
ghost use Rattle.fields.specs.Fields.{parsed, AnswersAs};
ghost use Rattle.runs.specs.Curves.{kept};

use fields::Fault;
use points::MAX_POINTS;

// Reads `count` values and keeps the first 64, in the blank array. With no heap there is no list of so many: the array has a fixed size.
pub fn read_kept<T: Copy, F: Fn(usize) -> Result<(T, usize), Fault>>(
    at: usize,
    count: usize,
    blank: [T; MAX_POINTS],
    read: F,
) -> Result<([T; MAX_POINTS], usize), Fault>
    requires { F.IsAlwaysCallable read }
    ensures { (b : T) (p : Parser T) (run : List ℕ) → blank ≡ replicate 64 b → AnswersAs (F.post read) p run → parsed result ≡ kept b p count run at }
{
    let mut kept = blank;
    let mut next = at;
    for i in 0..count {
        let (value, end) = read(next)?;
        let kept_too = i < MAX_POINTS;
        if kept_too {
            kept[i] = value;
        }
        next = end;
    }
    Ok((kept, next))
}
