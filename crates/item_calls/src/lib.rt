// The calls that an item stands for (document 02, W-203): each of them is accepted, and the player that they leave plays what the item's record holds (specs/Calls.antt). It has no code.
#![tactic(auto)]
