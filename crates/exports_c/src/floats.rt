// The functions on floats, one for one. Each contract is that of the function called.
ghost use Rattle.std.specs.Prelude.{◌≡◌, pos};
ghost use Rattle.std.specs.Float.Ieee as Ieee;
ghost use Rattle.std.specs.Float.{binary32, binary64};
ghost use Rattle.floatlaws.specs.Extrema.{max_of, min_of, clamp_of};
ghost use Rattle.floatlaws.specs.Whole.{whole_of, to_zero, to_floor, to_ceil, to_half};
ghost use Rattle.floatlaws.specs.Narrow.{narrowed};
ghost use Rattle.floatlaws.specs.Euclid.{rem_euclid};

#[unsafe(no_mangle)]
pub extern "C" fn float_max_f32(x: f32, y: f32) -> f32
    ensures { result ≡ max_of x y }
{
    exports::floats::float_max_f32(x, y)
}

#[unsafe(no_mangle)]
pub extern "C" fn float_min_f32(x: f32, y: f32) -> f32
    ensures { result ≡ min_of x y }
{
    exports::floats::float_min_f32(x, y)
}

#[unsafe(no_mangle)]
pub extern "C" fn float_clamp_f32(x: f32, lo: f32, hi: f32) -> f32
    ensures { result ≡ clamp_of x lo hi }
{
    exports::floats::float_clamp_f32(x, lo, hi)
}

#[unsafe(no_mangle)]
pub extern "C" fn float_max_f64(x: f64, y: f64) -> f64
    ensures { result ≡ max_of x y }
{
    exports::floats::float_max_f64(x, y)
}

#[unsafe(no_mangle)]
pub extern "C" fn float_clamp_f64(x: f64, lo: f64, hi: f64) -> f64
    ensures { result ≡ clamp_of x lo hi }
{
    exports::floats::float_clamp_f64(x, lo, hi)
}

#[unsafe(no_mangle)]
pub extern "C" fn float_trunc(x: f64) -> f64
    ensures { result ≡ whole_of binary64 to_zero x }
{
    exports::floats::float_trunc(x)
}

#[unsafe(no_mangle)]
pub extern "C" fn float_floor(x: f64) -> f64
    ensures { result ≡ whole_of binary64 to_floor x }
{
    exports::floats::float_floor(x)
}

#[unsafe(no_mangle)]
pub extern "C" fn float_ceil(x: f64) -> f64
    ensures { result ≡ whole_of binary64 to_ceil x }
{
    exports::floats::float_ceil(x)
}

#[unsafe(no_mangle)]
pub extern "C" fn float_round(x: f64) -> f64
    ensures { result ≡ whole_of binary64 to_half x }
{
    exports::floats::float_round(x)
}

#[unsafe(no_mangle)]
pub extern "C" fn float_f64_to_f32(x: f64) -> f32
    ensures { result ≡ narrowed binary32 x }
{
    exports::floats::float_f64_to_f32(x)
}

#[unsafe(no_mangle)]
pub extern "C" fn float_u64_to_f32(n: u64) -> f32
    ensures { result ≡ Ieee.of_int binary32 (pos n) }
{
    exports::floats::float_u64_to_f32(n)
}

#[unsafe(no_mangle)]
pub extern "C" fn float_f64_to_u64(x: f64) -> u64
    ensures { result ≡ Ieee.to_unsigned 64 x }
{
    exports::floats::float_f64_to_u64(x)
}

#[unsafe(no_mangle)]
pub extern "C" fn float_f64_to_u32(x: f64) -> u32
    ensures { result ≡ Ieee.to_unsigned 32 x }
{
    exports::floats::float_f64_to_u32(x)
}

#[unsafe(no_mangle)]
pub extern "C" fn float_f64_to_i64(x: f64) -> i64
    ensures { result ≡ Ieee.to_signed 63 x }
{
    exports::floats::float_f64_to_i64(x)
}

#[unsafe(no_mangle)]
pub extern "C" fn float_rem_euclid_f64(x: f64, y: f64) -> f64
    ensures { result ≡ rem_euclid binary64 x y }
{
    exports::floats::float_rem_euclid_f64(x, y)
}

#[unsafe(no_mangle)]
pub extern "C" fn float_round_f32(x: f32) -> f32
    ensures { result ≡ whole_of binary32 to_half x }
{
    exports::floats::float_round_f32(x)
}
