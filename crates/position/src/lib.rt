// The port of lfo/mod.rs, its `swung` and `position`: swing over pairs of cycles, and where in the shape a count of cycles falls; and when a
// One-shot has come to rest there.
#![tactic(auto)]

mod place;
mod rest;
mod swing;

pub use place::position;
pub use rest::finished;
pub use swing::swung;
