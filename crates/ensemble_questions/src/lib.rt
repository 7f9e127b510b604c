// The questions of an ensemble's calls, and the first one that a call fails.
#![tactic(auto)]

ghost use Rattle.std.specs.Prelude.{◌≡◌, ◌&&◌, ◌*◌, ◌≤◌, leb};
ghost use Rattle.questions.specs.Answers.{answer_of};
ghost use Rattle.questions.specs.Questions.{first_no};
ghost use Rattle.ensemble_calls.specs.Questions.{page_questions, make_questions, trigger_questions, voice_phase_questions, play_questions};

use codes::{SettingsCodes, TransportCodes};
use questions::{Question, ask};

// Setting the settings, with the code of shared.
#[tactic(auto, unfolding(questions::specs::Questions::first_no, ensemble_calls::specs::Questions::page_questions))]
fn page_answer(c: SettingsCodes, shared: u64) -> Result<(), Question>
    ensures { answer_of result ≡ first_no (page_questions c shared) }
{
    ask(shared < 2, Question::Known)?;
    questions::settings_answer(c)
}

// Making an ensemble of `count` voices.
#[tactic(auto, unfolding(questions::specs::Questions::first_no, ensemble_calls::specs::Questions::make_questions))]
pub fn make_answer(c: SettingsCodes, shared: u64, count: u64) -> Result<(), Question>
    ensures { answer_of result ≡ first_no (make_questions c shared count) }
{
    ask((2..=16).contains(&count), Question::Voices)?;
    page_answer(c, shared)
}

// Asking for a restart of voice v.
#[tactic(auto, unfolding(questions::specs::Questions::first_no, ensemble_calls::specs::Questions::trigger_questions))]
pub fn trigger_answer(count: usize, v: u64) -> Result<(), Question>
    ensures { answer_of result ≡ first_no (trigger_questions count v) }
{
    ask(v < count as u64, Question::Voice)
}

// Reading the phase of voice v.
#[tactic(auto, unfolding(questions::specs::Questions::first_no, ensemble_calls::specs::Questions::voice_phase_questions))]
pub fn voice_phase_answer(count: usize, v: u64, t: TransportCodes) -> Result<(), Question>
    ensures { answer_of result ≡ first_no (voice_phase_questions count v t) }
{
    ask(v < count as u64, Question::Voice)?;
    questions::phase_answer(t)
}

// Question 7: room for frames times voices.
fn play_fits(count: usize, frames: u64, x_len: usize, y_len: usize) -> bool
    requires { count ≤ 16 }
    ensures { result ≡ (leb frames 4096 && leb (frames * count) x_len && leb (frames * count) y_len) }
{
    if frames > 4096 {
        return false;
    }
    let values = frames * count as u64;
    (values <= x_len as u64) & (values <= y_len as u64)
}

// Playing a block of `frames` frames by `count` voices that have played so many, into buffers of these lengths.
#[tactic(auto, unfolding(questions::specs::Questions::first_no, questions::specs::Questions::phase_questions, ensemble_calls::specs::Questions::play_questions))]
pub fn play_answer(
    count: usize,
    played: u64,
    t: TransportCodes,
    frames: u64,
    x_len: usize,
    y_len: usize,
) -> Result<(), Question>
    requires { count ≤ 16 }
    ensures { answer_of result ≡ first_no (play_questions count played t frames x_len y_len) }
{
    questions::phase_answer(t)?;
    ask(play_fits(count, frames, x_len, y_len), Question::Room)?;
    ask(played <= (1 << 40) - frames, Question::Played)
}
