// The restart rule of players that meet their contracts call by call (specs/Rule.antt and proofs/PlayersRule.antt). It has no code.
#![tactic(auto)]
