// Basis states in the engine: what operations do to them, and what every query answers. It stands in specs/ and proofs/; there is no code.

#![tactic(auto)]
