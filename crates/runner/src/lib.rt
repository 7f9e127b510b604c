// The exported function: a run's bytes in, and what its calls give out (docs/RUN.md). `output` of specs/Output.antt says what it writes.
#![tactic(auto)]

mod block;
mod calling;
mod edits;
mod legs;
mod values;

ghost use Rattle.runner.specs.Output.{Runs};

use calling::Players;

// Reads the calls of `run` one by one, makes them on one player, and writes what each gives to `out`. Answers how many bytes it wrote.
#[unsafe(no_mangle)]
pub extern "C" fn lfo_run(run: &[u8], out: &mut [u8]) -> u64
    ensures { Runs run.now out.old result out.new }
{
    run_calls::run::<Players>(run, out)
}
