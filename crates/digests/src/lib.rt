// Worked examples of SHA-256. There is no code here; the checker computes them from the definitions that the contract of `hash` cites.
#![tactic(auto)]
