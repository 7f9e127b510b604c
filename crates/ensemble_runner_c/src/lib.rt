// The exported function of an ensemble's run (docs/RUN.md, Ensembles), as a static library for harness/ to link: `ensemble_runner` in C's name.
#![tactic(auto)]

ghost use Rattle.ensemble_runner.specs.Output.{Runs};

// Reads the calls of `run` one by one, makes them on one ensemble, and writes what each gives to `out`. Answers how many bytes it wrote.
#[unsafe(no_mangle)]
pub extern "C" fn lfo_ensemble_run(run: &[u8], out: &mut [u8]) -> u64
    ensures { Runs run.now out.old result out.new }
{
    ensemble_runner::lfo_ensemble_run(run, out)
}
