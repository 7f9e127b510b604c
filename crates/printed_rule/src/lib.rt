// The restart rule of what is printed: two sittings restarted alike print the same x and y, line by line from the restart (specs/Rule.antt). It has no code.
#![tactic(auto)]
