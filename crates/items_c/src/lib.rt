// Reading and writing items (docs/RUN.md, Items), as a static library for harness/ to link: the functions of `items` in C's names.
#![tactic(auto)]

ghost use Rattle.record.specs.Records.{read_record};
ghost use Rattle.items.specs.Said.{handed_in, SaysItem};

// Reads a record and writes the numbers of its item to `out`.
#[unsafe(no_mangle)]
pub extern "C" fn lfo_item_read(bytes: &[u8], out: &mut [u8]) -> u64
    ensures { SaysItem (read_record bytes.now) out.old result out.new }
{
    items::lfo_item_read(bytes, out)
}

// Writes the record of an item to `out`.
#[unsafe(no_mangle)]
pub extern "C" fn lfo_item_write(bytes: &[u8], out: &mut [u8]) -> u64
    ensures { SaysItem (handed_in bytes.now) out.old result out.new }
{
    items::lfo_item_write(bytes, out)
}
