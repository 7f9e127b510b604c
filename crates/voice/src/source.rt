// What a voice generates from: random values held for a cycle, and the chaos state.
ghost use Rattle.std.specs.Prelude.{◌≡◌};
ghost use Rattle.voice.specs.Source.{new_source, same_cycle, sampled_of};

use chaos::{Attractor, Law, State};

#[derive(Clone, Copy)]
pub struct Source {
    // The random generator's word.
    pub rng: u64,
    // Sample and hold's value, and the cycle that it was drawn for: -2^63 where the next sample draws.
    pub held: f32,
    pub cycle: i64,
    pub chaos: State,
}

// Whether two cycles are the same one.
fn same_cycle(a: i64, b: i64) -> bool
    ensures { result ≡ same_cycle a b }
{
    a == b
}

impl Source {
    // Random values from `seed`.
    #[tactic(auto, unfolding(crate::specs::Source::new_source))]
    pub fn new(seed: u64) -> Self
        ensures { result ≡ new_source seed }
    {
        Source {
            rng: random::mix(seed),
            held: 0.0,
            cycle: i64::MIN,
            chaos: Law::of(Attractor::Lorenz).start,
        }
    }

    // At a cycle: a new cycle draws a value.
    #[tactic(auto, unfolding(crate::specs::Source::sampled_of))]
    pub fn sampled(self, cycle: i64) -> Self
        ensures { result ≡ sampled_of self cycle }
    {
        if same_cycle(cycle, self.cycle) {
            return self;
        }
        let d = random::xorshift::draw(self.rng);
        Source {
            rng: d.word,
            held: d.value,
            cycle,
            ..self
        }
    }
}
