// Writing items as records (document 02, W-203): the questions first, then the numbers of the record in a list, then their bytes where there is room for all of them.
// What is written is `written_to` of crate record (specs/Records.antt).
#![tactic(auto)]

mod numbers;
mod paths;
mod records;
mod shapes;

ghost use Rattle.std.specs.Prelude.{◌≡◌, ◌≤◌, length, take};
ghost use Rattle.replies.specs.Replies.{bytes_of};
ghost use Rattle.record.specs.Kept.{kept};
ghost use Rattle.record.specs.Writing.{item_bytes};
ghost use Rattle.item_writer.specs.Numbers.{Adds, front_bytes};
ghost use Rattle.item_writer.specs.Written.{number, WritesRecord};
ghost use Rattle.item_writer.specs.declared.Refusal.{Refusal};

use codes::ItemCodes;
use numbers::{Put, put_row};
use questions::Question;

// The most numbers that an item has: 21 of its settings, 10 a point, 9 a path point, 16 buses, and 11 more.
const MOST: usize = 1264;

// Why no record is written.
#[derive(Clone, Copy, PartialEq, Eq)]
pub enum Refusal {
    // The first question that the item fails.
    Question(Question),
    // The buffer is too short for the record.
    NoRoom,
}

impl From<Question> for Refusal {
    ghost from_gives = { λ q r. r ≡ Refusal.Question q };

    fn from(question: Question) -> Refusal {
        Refusal::Question(question)
    }
}

impl Refusal {
    // The number by which a record is refused.
    pub fn number(self) -> u8
        ensures { result ≡ number self }
    {
        match self {
            Refusal::Question(question) => question.number(),
            Refusal::NoRoom => 21,
        }
    }
}

// The item up to its buses, its points as they are kept.
fn put_front(out: &mut [u64], c: ItemCodes) -> usize
    requires { 1258 ≤ length out.old }
    ensures { Adds out.old 0 (front_bytes c) 1258 result out.new }
{
    let settings = c.settings.put(out, 0);
    let shape = c.shape.put(out, settings);
    let path = c.path.put(out, shape);
    put_row(out, path, &c.buses)
}

// The numbers of the record.
fn put_item(out: &mut [u64], c: ItemCodes) -> usize
    requires { 1264 ≤ length out.old }
    ensures { (bytes_of (take result out.new) ≡ item_bytes (kept c)) × (result ≤ 1264) }
{
    let front = put_front(out, c);
    let seed = c.seed.put(out, front);
    let tempo = c.tempo.put(out, seed);
    let bar = c.beats_per_bar.put(out, tempo);
    let swing = c.swing.put(out, bar);
    c.scale.put(out, swing)
}

// Writes an item's record into the front of `out`, and gives its length: any codes, any buffer.
pub fn write_record(c: ItemCodes, out: &mut [u8]) -> Result<usize, Refusal>
    ensures { WritesRecord c out.old result out.new }
{
    record::item_answer(c)?;
    let mut numbers = [0u64; MOST];
    let n = put_item(&mut numbers, c);
    replies::write_numbers(out, 0, &numbers[..n]).ok_or(Refusal::NoRoom)
}
