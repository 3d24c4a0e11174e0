// The answers of queries at every angle, in exact numbers. It stands in specs/ (meaning) and proofs/; there is no code.

#![tactic(auto)]
