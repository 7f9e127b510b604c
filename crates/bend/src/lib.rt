// The strength of a bend, 2^(4 × curve), of a curve on a grid of 1/1024: an entry of a table, divided by a power of two and
// rounded. It stands for `(point.curve * CURVE_RANGE).exp2()` of lfo/shape.rs.
#![tactic(auto)]

mod table;

ghost use Rattle.std.specs.Prelude.{◌≡◌, ◌≤◌};
ghost use Rattle.floatlaws.specs.Numbers.{f64_1024};
ghost use Rattle.floatlaws.specs.Rounded.{◌×₆₄◌};
ghost use Rattle.bend.specs.Entries.{entries};
ghost use Rattle.bend.specs.Grid.{clamped_curve, on_grid, grid_index};
ghost use Rattle.bend.specs.Strengths.{octave_of, strength_at, strength_of};

pub use table::entries;

// 1024 times the clamped curve, exactly; a NaN stays.
fn scaled(curve: f32) -> f64
    ensures { result ≡ clamped_curve curve ×₆₄ f64_1024 }
{
    std::num::f32_to_f64_with_nan(extrema::clamp(curve, -1.0, 1.0)) * 1024.0
}

// Whether the clamped curve is a multiple of 1/1024.
pub fn on_grid(curve: f32) -> bool
    ensures { result ≡ on_grid (clamped_curve curve) }
{
    let y = scaled(curve);
    whole::trunc(y) == y
}

// The index of the clamped curve on the grid: 0 for -1, 1024 for 0, 2048 for 1. Off the grid it is that of the next multiple
// towards 0; a NaN counts as 0.
fn grid_index(curve: f32) -> u64
    ensures { (result ≡ grid_index (clamped_curve curve)) × (result ≤ 2048) }
{
    let y = scaled(curve);
    1024 + saturate::f64_to_u64(y) - saturate::f64_to_u64(-y)
}

// The octave of an index, from 1/16 on: 256 indexes each, and one more in the last.
fn octave(i: u64) -> u64
    ensures { result ≡ octave_of i }
{
    if i < 2048 { i / 256 } else { 7 }
}

// The strength at an index, by the table. An entry has 31 digits, of which an `f32` keeps 24: seven are cut. The leading digit counts into
// the exponent's field, and that of entry 256, which has 32, counts twice.
fn strength_at(table: &[u32; 257], i: u64) -> f32
    requires { (i ≤ 2048) × (table.now ≡ entries) }
    ensures { result ≡ strength_at i }
{
    let q = octave(i);
    let k = i - 256 * q;
    let digits = narrow::cut_even(table[k as usize] as u64, 7);
    f32::from_bits(((q + 122) * 8388608 + digits) as u32)
}

// The strength of a bend, for every curve, by the table, which is lent so that many strengths need one copy of it. Of a curve off the
// grid, which is refused, nothing is meant: it has the strength of the next multiple towards 0.
pub fn strength(table: &[u32; 257], curve: f32) -> f32
    requires { table.now ≡ entries }
    ensures { result ≡ strength_of curve }
{
    strength_at(table, grid_index(curve))
}
