// The output of a run of calls, over any state and any calls, in the words of docs/RUN.md (specs/), and its laws (proofs/). It has no code.
#![tactic(auto)]
