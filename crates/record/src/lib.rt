// The item as a file (document 02, W-203). The definitions are in specs/: what is read from bytes (Reading), an item's bytes (Writing), an item as it is kept (Kept), its
// questions (Questions), the reader and the writer (Records); the theorems are in Promises. The code here puts the questions to an item; crates item_reader and
// item_writer read and write records.
#![tactic(auto)]

ghost use Rattle.std.specs.Prelude.{◌≡◌};
ghost use Rattle.questions.specs.Answers.{answer_of};
ghost use Rattle.record.specs.Items.{transport_of};
ghost use Rattle.record.specs.Questions.{buses_finite, item_known, item_finite, item_answer};

use codes::{ItemCodes, TransportCodes};
use points::POINT_BUSES;
use questions::{Question, ask};

// The transport from which an item is played.
pub fn transport(c: ItemCodes) -> TransportCodes
    ensures { result ≡ transport_of c }
{
    TransportCodes {
        sample_rate: 48000.0,
        tempo: c.tempo,
        beats_per_bar: c.beats_per_bar,
        playing: 1,
        beats: 0.0,
        seconds: 0.0,
        swing: c.swing,
        scale: c.scale,
    }
}

// Question 2 of the buses.
fn buses_finite(buses: [f32; POINT_BUSES]) -> bool
    ensures { result ≡ buses_finite buses }
{
    buses.iter().all(|x| questions::is_finite_f32(*x))
}

// Question 1.
fn item_known(c: ItemCodes) -> bool
    ensures { result ≡ item_known c }
{
    questions::settings_known(c.settings)
        & questions::shape_known(c.shape)
        & questions::path_known(c.path)
        & questions::transport_known(transport(c))
}

// Question 2.
fn item_finite(c: ItemCodes) -> bool
    ensures { result ≡ item_finite c }
{
    questions::settings_finite(c.settings)
        & questions::shape_finite(c.shape)
        & questions::path_finite(c.path)
        & buses_finite(c.buses)
        & questions::transport_finite(transport(c))
}

// The questions that are put to an item, and the first one that it fails.
#[tactic(auto, unfolding(questions::specs::Questions::first_no, crate::specs::Questions::item_questions, crate::specs::Questions::item_answer))]
pub fn item_answer(c: ItemCodes) -> Result<(), Question>
    ensures { answer_of result ≡ item_answer c }
{
    ask(item_known(c), Question::Known)?;
    ask(item_finite(c), Question::Finite)?;
    ask(questions::loopback_in(c.shape), Question::Loopback)?;
    ask(questions::path_on_paper(c.path), Question::Paper)?;
    ask(questions::shape_on_grid(c.shape), Question::Grid)?;
    ask(questions::smooth_in(c.settings.smooth), Question::Smoothing)?;
    ask(questions::transport_in(transport(c)), Question::Transport)
}
