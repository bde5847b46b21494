// Two companies in one building: what one of them is told does not depend on the other's calls. There is no code here; the theorem is about the rules that the
// calls' contracts cite.
#![tactic(auto)]
