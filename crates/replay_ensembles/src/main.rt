// Plays the stored runs of ensembles of the file `stdin` and shows what `lfo_ensemble_run` gives, a line each, as hexadecimal digits. The file `stdout` has what the
// Rust source gives: harness/ wrote both, by `harness/run vectors ensembles`. Crate `stored` says how a stored one looks; its kind is 0.
#![tactic(auto)]

use std::io;
use std::io::{BufReader, BufWriter};
use stored::Given;

fn main(rt: HostRuntime) -> io::Result<()> {
    let mut input = BufReader::new(rt.alloc(), rt.reader())?;
    let mut to = BufWriter::new(rt.alloc(), io::writer(&rt))?;
    stored::replay(&mut input, &mut to, |_, run, out| {
        Given::Bytes(ensemble_runner::lfo_ensemble_run(run, out))
    })
}
