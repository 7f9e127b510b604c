// The exported function of an ensemble's run: a run's bytes in, and what its calls give out (docs/RUN.md, Ensembles). `output` of specs/Output.antt says what it
// writes.
#![tactic(auto)]

mod block;
mod calling;
mod edits;
mod values;

ghost use Rattle.ensemble_runner.specs.Output.{Runs};

use calling::Ensembles;

// Reads the calls of `run` one by one, makes them on one ensemble, and writes what each gives to `out`. Answers how many bytes it wrote.
#[unsafe(no_mangle)]
pub extern "C" fn lfo_ensemble_run(run: &[u8], out: &mut [u8]) -> u64
    ensures { Runs run.now out.old result out.new }
{
    run_calls::run::<Ensembles>(run, out)
}
