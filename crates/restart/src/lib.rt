// The restart rule, about any two lists of calls (specs/Rule.antt and proofs/RestartRule.antt). It has no code.
#![tactic(auto)]
