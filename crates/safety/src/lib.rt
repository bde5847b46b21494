// Demand 3: two accepted verdicts never disagree. There is no code here; the theorem is about the rules that the calls' contracts cite.
#![tactic(auto)]
