// The sign theorem: the engine against signed Pauli strings. It stands in specs/ (meaning) and proofs/; there is no code.

#![tactic(auto)]
