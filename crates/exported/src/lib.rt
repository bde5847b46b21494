// Demand 3 over the calls that C makes, with heads and rows as a program lends them. There is no code here; the theorem is about what the exported calls leave
// by their contracts.
#![tactic(auto)]
