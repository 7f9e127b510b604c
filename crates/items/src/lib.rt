// Reading and writing items under C names, for harness/ to link (docs/RUN.md, Items).
#![tactic(auto)]

ghost use Rattle.std.specs.Prelude.{◌≡◌, ◌+◌, ◌*◌, ◌≤◌};
ghost use Rattle.fields.specs.Fields.{parsed};
ghost use Rattle.record.specs.Records.{read_record};
ghost use Rattle.item_writer.specs.Written.{number_of, length_of};
ghost use Rattle.items.specs.Said.{item, handed, handed_in, SaysItem};

use codes::ItemCodes;
use fields::Fault;
use item_writer::Refusal;
use runs::{read_path, read_scale, read_settings, read_shape};

// An item in RUN.md's numbers, as the writer of records takes it: any codes and any points.
#[tactic(auto, unfolding(crate::specs::Said::item))]
fn read_item(s: &[u8], at: usize) -> Result<(ItemCodes, usize), Fault>
    ensures { parsed result ≡ item s.now at }
{
    item_reader::read_item_by(
        s,
        at,
        |at| read_settings(s, at),
        |at| read_shape(s, at),
        |at| read_path(s, at),
        |at| read_scale(s, at),
    )
}

// The same, with nothing behind it.
#[tactic(auto, unfolding(crate::specs::Said::handed_in, crate::specs::Said::or_malformed, record::specs::Records::ended, fields::specs::Parser::after))]
fn handed_in(s: &[u8]) -> Option<ItemCodes>
    ensures { handed result ≡ handed_in s.now }
{
    let Ok((item, end)) = read_item(s, 0) else {
        return None;
    };
    if end != s.len() {
        return None;
    }
    Some(item)
}

// The number, and 256 times the length of what was written: C gets the two in one.
fn packed(written: Result<usize, Refusal>) -> u64
    requires { length_of written ≤ 12640 }
    ensures { result ≡ number_of written + 256 * length_of written }
{
    match written {
        Ok(len) => 256 * len as u64,
        Err(refusal) => u64::from(refusal.number()),
    }
}

// Reads a record and writes the numbers of its item to `out`.
#[unsafe(no_mangle)]
pub extern "C" fn lfo_item_read(bytes: &[u8], out: &mut [u8]) -> u64
    ensures { SaysItem (read_record bytes.now) out.old result out.new }
{
    match item_reader::read_record(bytes) {
        Ok(item) => packed(item_writer::write_record(item, out)),
        Err(refusal) => u64::from(refusal.number()),
    }
}

// Writes the record of an item to `out`.
#[unsafe(no_mangle)]
pub extern "C" fn lfo_item_write(bytes: &[u8], out: &mut [u8]) -> u64
    ensures { SaysItem (handed_in bytes.now) out.old result out.new }
{
    match handed_in(bytes) {
        Some(item) => packed(item_writer::write_record(item, out)),
        None => 255,
    }
}
