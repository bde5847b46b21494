// A worked history for demand 3: its premises are met. There is no code here; the history goes by the rules that the calls' contracts cite.
#![tactic(auto)]
