// Reading items from records (document 02, W-203). What is read at a place is `item` of crate record, what a record gives is `read_record`,
// and an item with something behind it is `accepted_item` (crate record, specs/Reading.antt and specs/Records.antt).
#![tactic(auto)]

mod paths;
mod records;
mod shapes;

ghost use Rattle.std.specs.Prelude.{◌≡◌};
ghost use Rattle.fields.specs.Fields.{parsed, parsed_by, AnswersAs};
ghost use Rattle.record.specs.Reading.{item_by, item};
ghost use Rattle.record.specs.Records.{accepted_item, read_record};
ghost use Rattle.item_reader.specs.Refusals.{number, outcome};
ghost use Rattle.item_reader.specs.declared.Refusal.{Refusal};

use codes::{ItemCodes, PathCodes, ScaleCodes, SettingsCodes, ShapeCodes};
use fields::{Fault, read_f32, read_f32s, read_f64, read_number};
use paths::read_path;
use questions::Question;
use records::{read_scale, read_settings};
use shapes::read_shape;

// Why an item is refused.
#[derive(Clone, Copy, PartialEq, Eq)]
pub enum Refusal {
    Fault(Fault),
    // Bytes are left over behind it.
    LeftOver,
    // The first question that it fails.
    Question(Question),
}

impl From<Fault> for Refusal {
    ghost from_gives = { λ f r. r ≡ Refusal.Fault f };

    fn from(fault: Fault) -> Refusal {
        Refusal::Fault(fault)
    }
}

impl From<Question> for Refusal {
    ghost from_gives = { λ q r. r ≡ Refusal.Question q };

    fn from(question: Question) -> Refusal {
        Refusal::Question(question)
    }
}

impl Refusal {
    // The number by which an item is refused.
    pub fn number(self) -> u8
        ensures { result ≡ number self }
    {
        match self {
            Refusal::Fault(fault) => fields::fault_number(fault),
            Refusal::LeftOver => 14,
            Refusal::Question(question) => question.number(),
        }
    }
}

// An item from a place on, its parts by these readers.
#[tactic(auto, unfolding(fields::specs::Parser::after))]
pub fn read_item_by<
    F: FnOnce(usize) -> Result<(SettingsCodes, usize), Fault>,
    G: FnOnce(usize) -> Result<(ShapeCodes, usize), Fault>,
    H: FnOnce(usize) -> Result<(PathCodes, usize), Fault>,
    K: FnOnce(usize) -> Result<(ScaleCodes, usize), Fault>,
>(
    s: &[u8],
    at: usize,
    read_settings: F,
    read_shape: G,
    read_path: H,
    read_scale: K,
) -> Result<(ItemCodes, usize), Fault>
    requires { F.IsAlwaysCallable read_settings
        × G.IsAlwaysCallable read_shape
        × H.IsAlwaysCallable read_path
        × K.IsAlwaysCallable read_scale }
    ensures { (settings : _) (shape : _) (path : _) (scale : _)
        → AnswersAs (F.post read_settings) settings s.now
        → AnswersAs (G.post read_shape) shape s.now
        → AnswersAs (H.post read_path) path s.now
        → AnswersAs (K.post read_scale) scale s.now
        → parsed result ≡ item_by settings shape path scale s.now at }
{
    let (settings, at) = read_settings(at)?;
    let (shape, at) = read_shape(at)?;
    let (path, at) = read_path(at)?;
    let (buses, at) = read_f32s(s, at)?;
    let (seed, at) = read_number(s, at)?;
    let (tempo, at) = read_f64(s, at)?;
    let (beats_per_bar, at) = read_f64(s, at)?;
    let (swing, at) = read_f32(s, at)?;
    let (scale, at) = read_scale(at)?;
    let item = ItemCodes {
        settings,
        shape,
        path,
        buses,
        seed,
        tempo,
        beats_per_bar,
        swing,
        scale,
    };
    Ok((item, at))
}

// The item from a place on, with no question put.
#[tactic(auto, unfolding(record::specs::Reading::item))]
pub fn read_item(s: &[u8], at: usize) -> Result<(ItemCodes, usize), Fault>
    ensures { parsed result ≡ item s.now at }
{
    read_item_by(
        s,
        at,
        |at| read_settings(s, at),
        |at| read_shape(s, at),
        |at| read_path(s, at),
        |at| read_scale(s, at),
    )
}

// The item from a place on, whatever stands behind it. The questions are put once it is read.
#[tactic(auto, unfolding(record::specs::Records::accepted_item, fields::specs::Parser::after))]
pub fn read_accepted(s: &[u8], at: usize) -> Result<(ItemCodes, usize), Refusal>
    ensures { parsed_by number result ≡ accepted_item s.now at }
{
    let (item, at) = read_item(s, at)?;
    record::item_answer(item)?;
    Ok((item, at))
}

// Reads a record: any bytes. 12 and 13, then 14, then the questions.
#[tactic(auto, unfolding(record::specs::Records::read_record, record::specs::Records::whole_record, record::specs::Records::asked, record::specs::Records::ended, fields::specs::Parser::after))]
pub fn read_record(s: &[u8]) -> Result<ItemCodes, Refusal>
    ensures { outcome result ≡ read_record s.now }
{
    let (item, end) = read_item(s, 0)?;
    if end != s.len() {
        return Err(Refusal::LeftOver);
    }
    record::item_answer(item)?;
    Ok(item)
}
