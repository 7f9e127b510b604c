// The divisions of a synced rate as the syllabus prints them: a table of fifteen lengths, each in bars or in beats. It stands for the
// arms of `Division::beats` in lfo/mod.rs.
#![tactic(auto)]

ghost use Rattle.std.specs.Prelude.{◌≡◌};
ghost use Rattle.divisions.specs.Lengths.{note_length, in_beats};

// Bars follow the host's time signature; beats are quarter notes, whatever the signature.
#[derive(Clone, Copy)]
pub enum NoteLength {
    Bars(f64),
    Beats(f64),
}

// How many divisions there are.
pub const COUNT: u8 = 15;

// By index, 0 (32 bars) to 14 (fast).
const NOTE_LENGTHS: [NoteLength; COUNT as usize] = [
    NoteLength::Bars(32.0),
    NoteLength::Bars(16.0),
    NoteLength::Bars(8.0),
    NoteLength::Bars(4.0),
    NoteLength::Bars(2.0),
    NoteLength::Bars(1.0),
    NoteLength::Beats(2.0),
    NoteLength::Beats(1.0),
    NoteLength::Beats(1.0 / 2.0),
    NoteLength::Beats(1.0 / 4.0),
    NoteLength::Beats(1.0 / 8.0),
    NoteLength::Beats(1.0 / 16.0),
    NoteLength::Beats(1.0 / 32.0),
    NoteLength::Beats(1.0 / 64.0),
    NoteLength::Beats(1.0 / 128.0),
];

// How long division `index` lasts; what is past the last counts as the last.
pub fn note_length(index: u8) -> NoteLength
    ensures { result ≡ note_length index }
{
    NOTE_LENGTHS[index.min(COUNT - 1) as usize]
}

impl NoteLength {
    // In beats, given the bar's length in beats.
    pub fn beats(self, beats_per_bar: f64) -> f64
        ensures { result ≡ in_beats self beats_per_bar }
    {
        match self {
            NoteLength::Bars(n) => n * beats_per_bar,
            NoteLength::Beats(n) => n,
        }
    }
}
