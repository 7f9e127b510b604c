// The questions by name, each with its number: a call that is refused gives the first question that it fails.
ghost use Rattle.std.specs.Prelude.{◌≡◌, cond, Ok, Err};
ghost use Rattle.questions.specs.Answers.{question_number, answer_of};

// 3 and 12 to 14 are no question's: document 02 withdraws question 3, and 12 to 14 say how bytes are at fault.
#[derive(Clone, Copy, PartialEq, Eq)]
pub enum Question {
    // 1: is each code known?
    Known,
    // 2: is each float finite?
    Finite,
    // 4: is the loopback, if present, below the number of points kept?
    Loopback,
    // 5: is the smoothing coefficient, if present, within 0 to 1?
    Smoothing,
    // 6: is the transport in range?
    Transport,
    // 7: are there at most 4,096 frames, with room for each?
    Room,
    // 8: would the frames played stay within 2^40?
    Played,
    // 9: is the bus below 16?
    Bus,
    // 10: is each clamped curve on the grid?
    Grid,
    // 11: is each coordinate on the squared paper?
    Paper,
    // 15: are there two to sixteen voices?
    Voices,
    // 16: is the voice one of them?
    Voice,
}

impl Question {
    pub fn number(self) -> u8
        ensures { result ≡ question_number self }
    {
        match self {
            Question::Known => 1,
            Question::Finite => 2,
            Question::Loopback => 4,
            Question::Smoothing => 5,
            Question::Transport => 6,
            Question::Room => 7,
            Question::Played => 8,
            Question::Bus => 9,
            Question::Grid => 10,
            Question::Paper => 11,
            Question::Voices => 15,
            Question::Voice => 16,
        }
    }
}

// The number that a call answers: 0 where it is accepted.
pub fn number_of<T>(r: &Result<T, Question>) -> u8
    ensures { result ≡ answer_of r.now }
{
    match r {
        Ok(_) => 0,
        Err(q) => q.number(),
    }
}

// Puts one question: whether it is passed.
pub fn ask(passes: bool, q: Question) -> Result<(), Question>
    ensures { result ≡ cond passes (Ok tt) (Err q) }
{
    if passes { Ok(()) } else { Err(q) }
}
