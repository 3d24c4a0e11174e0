// The bit register of demand 3 and its theory, up to the item list. It stands in specs/ (definitions) and proofs/ (theorems); there is no code.

#![tactic(auto)]
