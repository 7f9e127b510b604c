// Tests of what stands under a case, and of floats.
ghost use Rattle.std.specs.Prelude.{◌≡◌, cond, true};
ghost use Rattle.std.specs.Float.Ieee.Scale.{finite};

// A test of what stands under a case; where the case was not chosen it is passed.
pub fn if_chosen(chosen: bool, passes: bool) -> bool
    ensures { result ≡ cond chosen passes true }
{
    !chosen | passes
}

// Two functions, since std has a method for each format; and what it answers is said here in the word of the specs, once for all callers.
pub fn is_finite_f32(x: f32) -> bool
    ensures { result ≡ finite x }
{
    x.is_finite()
}

pub fn is_finite_f64(x: f64) -> bool
    ensures { result ≡ finite x }
{
    x.is_finite()
}
