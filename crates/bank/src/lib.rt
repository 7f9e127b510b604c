// The port of lfo/bank.rs, `render_parts`: a block of one voice, with a restart in it or without.
#![tactic(auto)]

mod parts;
mod stretch;

pub use parts::render_parts;
pub use stretch::Rendered;
