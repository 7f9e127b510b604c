// What `harness/` links of `exports`, a static library: each function calls the one of its name there, in the module of its name, and
// promises the same.
#![tactic(auto)]

mod bends;
mod choices;
mod floats;
mod legs;
