// What makes the maker a maker: what it writes is accepted, and it refuses only what cannot be. There is no code here; the theorems are about the rules.
#![tactic(auto)]
