// The crate `bend`. Each contract is that of the function called.
ghost use Rattle.std.specs.Prelude.{◌≡◌};
ghost use Rattle.bend.specs.Grid.{clamped_curve, on_grid};
ghost use Rattle.bend.specs.Strengths.{strength_of};

// The strength of a curve; of one off the grid nothing is meant.
#[unsafe(no_mangle)]
pub extern "C" fn bend_strength(curve: f32) -> f32
    ensures { result ≡ strength_of curve }
{
    exports::bends::bend_strength(curve)
}

// Whether the clamped curve is a multiple of 1/1024.
#[unsafe(no_mangle)]
pub extern "C" fn bend_on_grid(curve: f32) -> bool
    ensures { result ≡ on_grid (clamped_curve curve) }
{
    exports::bends::bend_on_grid(curve)
}
