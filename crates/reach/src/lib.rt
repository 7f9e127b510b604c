// Laws of the clock and of position, for the crates above (proofs/): how far a cycle count gets, and that every position that a
// player reaches lies from 0 to 1. It has no code.
#![tactic(auto)]
