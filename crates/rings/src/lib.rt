// Rings: the laws of numbers, and a solver of their equations. It stands in specs/ (meaning) and proofs/; there is no code.

#![tactic(auto)]
