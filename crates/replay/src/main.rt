// Plays the stored runs, reads the stored records and writes the stored items of the file `stdin`, and shows what `lfo_run`, `lfo_item_read` and `lfo_item_write` give, a
// line each, as hexadecimal digits: of a run its output, of a record and an item the number and then the bytes. The file `stdout` has what the Rust source, and of records
// and items the harness's own reader and writer, give: harness/ wrote both, by `harness/run vectors runs`.
// Crate `stored` says how a stored one looks; its kind is 0 for a run, 1 for a record, 2 for an item.
#![tactic(auto)]

use std::io;
use std::io::{BufReader, BufWriter};
use stored::Given;

fn main(rt: HostRuntime) -> io::Result<()> {
    let mut input = BufReader::new(rt.alloc(), rt.reader())?;
    let mut to = BufWriter::new(rt.alloc(), io::writer(&rt))?;
    stored::replay(&mut input, &mut to, |kind, bytes, out| match kind {
        0 => Given::Bytes(runner::lfo_run(bytes, out)),
        1 => Given::Answer(items::lfo_item_read(bytes, out)),
        _ => Given::Answer(items::lfo_item_write(bytes, out)),
    })
}
