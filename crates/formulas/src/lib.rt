// The engine's formulas over any numbers. They stand in specs/, worked rows in proofs/; there is no code.

#![tactic(auto)]
