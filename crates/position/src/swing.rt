// Swing over pairs of cycles.
ghost use Rattle.std.specs.Prelude.{◌≡◌};
ghost use Rattle.position.specs.Position.{into_pair, swung_of};

// How far into its pair a count r is, when the first cycle takes a of the pair's two.
#[tactic(auto, unfolding(crate::specs::Position::into_pair))]
fn into_pair(r: f64, a: f64) -> f64
    ensures { result ≡ into_pair r a }
{
    if r < a {
        r / a
    } else {
        1.0 + (r - a) / (2.0 - a)
    }
}

// Swing over pairs of cycles: the first of each pair takes `first` of the pair's time and the second the rest, so the pair still
// lasts two cycles.
#[tactic(auto, unfolding(crate::specs::Position::swung_of))]
pub fn swung(c: f64, first: f64) -> f64
    ensures { result ≡ swung_of c first }
{
    let pair = whole::floor(c * 0.5);
    let r = c - 2.0 * pair;
    let a = 2.0 * first;
    2.0 * pair + into_pair(r, a)
}
