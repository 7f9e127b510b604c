// The calls of document 01 on values (specs/): what each answers, and the player that it leaves; and what the paper says of every call (specs/Laws.antt). It has no code.
#![tactic(auto)]
