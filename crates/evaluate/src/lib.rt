// The calls that evaluate a shape and a path (document 01), unmodulated, as an editor draws them, and the legs of a path (document 02,
// W-202). They touch no player.
#![tactic(auto)]

ghost use Rattle.std.specs.Prelude.{◌≡◌};
ghost use Rattle.questions.specs.Answers.{result_answer, one_value};
ghost use Rattle.evaluate.specs.Values.{evaluated_shape, place_values, evaluated_path, legs_answer, evaluated_legs};

use codes::{PathCodes, ShapeCodes};
use path_segments::Xy;
use points::MAX_POINTS;
use questions::Question;

// How many legs a path has, and their lengths. Zeros follow.
#[derive(Clone, Copy)]
pub struct Legs {
    pub count: usize,
    pub lengths: [f32; MAX_POINTS],
}

// The value of a shape at `x`.
#[tactic(auto, using(questions::proofs::Results::refusal_is, questions::proofs::Results::success_is), unfolding(crate::specs::Values::evaluated_shape))]
pub fn evaluate_shape(c: ShapeCodes, x: f32) -> Result<f32, Question>
    ensures { result_answer one_value result ≡ evaluated_shape c x }
{
    questions::shape_answer(questions::is_finite_f32(x), c)?;
    Ok(curves::shape_of(c).value(x))
}

// X and Y of a path at the time `t`.
#[tactic(auto, using(questions::proofs::Results::refusal_is, questions::proofs::Results::success_is), unfolding(crate::specs::Values::evaluated_path))]
pub fn evaluate_path(c: PathCodes, t: f32) -> Result<Xy, Question>
    ensures { result_answer place_values result ≡ evaluated_path c t }
{
    questions::path_answer(questions::is_finite_f32(t), c)?;
    Ok(curves::path_of(c).value(t))
}

// The lengths of the legs of a path.
#[tactic(auto, using(questions::proofs::Numbers::number_not_zero), unfolding(crate::specs::Values::evaluated_legs))]
pub fn evaluate_legs(c: PathCodes) -> Result<Legs, Question>
    ensures { legs_answer result ≡ evaluated_legs c }
{
    questions::path_answer(true, c)?;
    let p = curves::path_of(c);
    let count = path_segments::segment_count(p.len, p.closed);
    let lengths = p.legs();
    Ok(Legs { count, lengths })
}
