// A column of a buffer: every so many places one value.
#![tactic(auto)]

ghost use Rattle.std.specs.Prelude.{◌≡◌, ◌++◌, ◌*◌, length, drop, replicate};
ghost use Rattle.std.specs.Float.{nan};
ghost use Rattle.columns.specs.Columns.{strided, interleaved, Fits, FitAll};

// Writes the values of `from` to places v, v + stride, v + 2 * stride, .. of `to`.
pub fn scatter(from: &[f32], v: usize, stride: usize, to: &mut [f32])
    requires { Fits (length from.now) v stride from.now to.old }
    ensures { to.new ≡ strided stride v from.now to.old }
{
    for (k, value) in from.iter().enumerate() {
        to[v + k * stride] = *value;
    }
}

// Writes the values of `from` to every one of `stride` columns of `to`.
pub fn spread(from: &[f32], stride: usize, to: &mut [f32])
    requires { FitAll (length from.now) stride from.now to.old }
    ensures { to.new ≡ interleaved nan (length from.now) (replicate stride from.now) ++ drop (length from.now * stride) to.old }
{
    for v in 0..stride {
        scatter(from, v, stride, to);
    }
}
