// Worked rows of the definitions, computed whole. They stand in proofs/; there is no code.

#![tactic(auto)]
