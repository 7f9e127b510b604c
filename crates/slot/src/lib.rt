// The port of lfo/mod.rs, `Lfo` with its `new` but for its clock: what calls set of an LFO slot, and what a block reads of it.
#![tactic(auto)]

mod moved;
mod page;

pub use moved::{Lists, loop_point, point_count};
pub use page::Page;
