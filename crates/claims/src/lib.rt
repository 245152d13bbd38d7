// What the key claims of a job and a list of calls: statements with proofs, in specs/; there is no code here.

#![tactic(auto)]
