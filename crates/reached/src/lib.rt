// Document 01's claims about players, as theorems about every player that calls have reached (specs/ and proofs/). It has no code.
#![tactic(auto)]
