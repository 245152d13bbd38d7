// The laws of the rules are statements with proofs, in specs/; there is no code here.

#![tactic(auto)]
