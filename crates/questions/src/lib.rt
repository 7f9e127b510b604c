// The examiner's questions (document 01) that each call is put, and the first one that it fails.
#![tactic(auto)]

mod curve_tests;
mod floats;
mod question;
mod settings_tests;

ghost use Rattle.std.specs.Prelude.{◌≡◌, ◌&&◌, ltb, leb};
ghost use Rattle.settings.specs.Codes.{transport_known};
ghost use Rattle.questions.specs.Answers.{answer_of};
ghost use Rattle.questions.specs.Questions.{first_no, settings_questions, shape_questions, path_questions, bus_questions, phase_questions, block_questions};

use codes::{PathCodes, RestartCodes, SettingsCodes, ShapeCodes, TransportCodes};
pub use curve_tests::{
    loopback_in, path_finite, path_known, path_on_paper, shape_finite, shape_known, shape_on_grid,
};
pub use floats::{is_finite_f32, is_finite_f64};
pub use question::{Question, ask, number_of};
pub use settings_tests::{
    settings_finite, settings_known, smooth_in, transport_finite, transport_in, transport_known,
};

// Making a player, and setting its settings.
#[tactic(auto, unfolding(crate::specs::Questions::first_no, crate::specs::Questions::settings_questions))]
pub fn settings_answer(c: SettingsCodes) -> Result<(), Question>
    ensures { answer_of result ≡ first_no (settings_questions c) }
{
    ask(settings_known(c), Question::Known)?;
    ask(settings_finite(c), Question::Finite)?;
    ask(smooth_in(c.smooth), Question::Smoothing)
}

// Setting or evaluating a shape. `others`: the call's other floats are finite.
#[tactic(auto, unfolding(crate::specs::Questions::first_no, crate::specs::Questions::shape_questions))]
pub fn shape_answer(others: bool, c: ShapeCodes) -> Result<(), Question>
    ensures { answer_of result ≡ first_no (shape_questions others c) }
{
    ask(shape_known(c), Question::Known)?;
    ask(shape_finite(c) & others, Question::Finite)?;
    ask(loopback_in(c), Question::Loopback)?;
    ask(shape_on_grid(c), Question::Grid)
}

// Setting or evaluating a path, and measuring its legs.
#[tactic(auto, unfolding(crate::specs::Questions::first_no, crate::specs::Questions::path_questions))]
pub fn path_answer(others: bool, c: PathCodes) -> Result<(), Question>
    ensures { answer_of result ≡ first_no (path_questions others c) }
{
    ask(path_known(c), Question::Known)?;
    ask(path_finite(c) & others, Question::Finite)?;
    ask(path_on_paper(c), Question::Paper)
}

// Setting one bus.
#[tactic(auto, unfolding(crate::specs::Questions::first_no, crate::specs::Questions::bus_questions))]
pub fn bus_answer(bus: u64, value: f32) -> Result<(), Question>
    ensures { answer_of result ≡ first_no (bus_questions bus value) }
{
    ask(is_finite_f32(value), Question::Finite)?;
    ask(bus < 16, Question::Bus)
}

// Reading the phase.
#[tactic(auto, unfolding(crate::specs::Questions::first_no, crate::specs::Questions::phase_questions))]
pub fn phase_answer(t: TransportCodes) -> Result<(), Question>
    ensures { answer_of result ≡ first_no (phase_questions t) }
{
    ask(transport_known(t), Question::Known)?;
    ask(transport_finite(t), Question::Finite)?;
    ask(transport_in(t), Question::Transport)
}

// Question 1 of a block.
fn block_known(t: TransportCodes, restart: RestartCodes) -> bool
    ensures { result ≡ (transport_known t && ltb restart.code 2) }
{
    transport_known(t) & (restart.code < 2)
}

// Question 7.
fn block_fits(frames: u64, x_len: usize, y_len: usize) -> bool
    ensures { result ≡ (leb frames 4096 && leb frames x_len && leb frames y_len) }
{
    (frames <= 4096) & (frames <= x_len as u64) & (frames <= y_len as u64)
}

// Playing a block of `frames` frames into buffers of these lengths, by a player that has played so many.
#[tactic(auto, unfolding(crate::specs::Questions::first_no, crate::specs::Questions::block_questions))]
pub fn block_answer(
    played: u64,
    t: TransportCodes,
    frames: u64,
    restart: RestartCodes,
    x_len: usize,
    y_len: usize,
) -> Result<(), Question>
    ensures { answer_of result ≡ first_no (block_questions played t frames restart x_len y_len) }
{
    ask(block_known(t, restart), Question::Known)?;
    ask(transport_finite(t), Question::Finite)?;
    ask(transport_in(t), Question::Transport)?;
    ask(block_fits(frames, x_len, y_len), Question::Room)?;
    ask(played <= (1 << 40) - frames, Question::Played)
}
