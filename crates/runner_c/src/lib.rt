// The exported function of a run (docs/RUN.md), as a static library for harness/ to link: `runner` in C's name.
#![tactic(auto)]

ghost use Rattle.runner.specs.Output.{Runs};

// Reads the calls of `run` one by one, makes them on one player, and writes what each gives to `out`. Answers how many bytes it wrote.
#[unsafe(no_mangle)]
pub extern "C" fn lfo_run(run: &[u8], out: &mut [u8]) -> u64
    ensures { Runs run.now out.old result out.new }
{
    runner::lfo_run(run, out)
}
