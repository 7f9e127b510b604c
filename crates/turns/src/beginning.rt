// The beginning and the end of a sitting.
ghost use Rattle.std.specs.Prelude.{◌≡◌};
ghost use Rattle.sittings.specs.Windows.{opening};
ghost use Rattle.turns.specs.Turns.{stage_of, index_of, ValidSitting, is_over};

use super::Sitting;

// A sitting of which nothing has been read.
pub fn begin() -> Sitting
    ensures { (stage_of result ≡ opening) × (index_of result ≡ 0) × ValidSitting result }
{
    Sitting::Opening
}

// Whether nothing more is printed.
pub fn is_over(t: &Sitting) -> bool
    ensures { result ≡ is_over t.now }
{
    match t {
        Sitting::NoMore => true,
        _ => false,
    }
}
