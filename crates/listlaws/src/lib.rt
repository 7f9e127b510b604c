// Definitions of lists, over any element type, that the other crates' contracts cite (specs/), and
// their laws (proofs/). It has no code.
#![tactic(auto)]
