// The crate `leg`. Each contract is that of the function called.
ghost use Rattle.std.specs.Prelude.{◌≡◌};
ghost use Rattle.leg.specs.Paper.{on_paper, sum_of_squares};
ghost use Rattle.leg.specs.Root.{IsLeg};

// The length of the leg from (ax, ay) to (bx, by); of a point off the paper nothing is meant.
#[unsafe(no_mangle)]
pub extern "C" fn path_leg(ax: f32, ay: f32, bx: f32, by: f32) -> f32
    ensures { IsLeg (sum_of_squares ax ay bx by) result }
{
    exports::legs::path_leg(ax, ay, bx, by)
}

// Whether a coordinate is a multiple of 1/4096 within 0 to 1.
#[unsafe(no_mangle)]
pub extern "C" fn path_on_paper(c: f32) -> bool
    ensures { result ≡ on_paper c }
{
    exports::legs::path_on_paper(c)
}
