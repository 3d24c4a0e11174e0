// The theorem at every angle, in exact numbers: the engine's formulas against the operators of n qubits. It stands in specs/ (meaning) and proofs/; there is no
// code.

#![tactic(auto)]
