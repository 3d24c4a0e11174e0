// The engine's definitions are the formulas of the theory at every angle, with the operations of binary64 in the place of exact ones. It stands in specs/
// (meaning) and proofs/; there is no code.

#![tactic(auto)]
