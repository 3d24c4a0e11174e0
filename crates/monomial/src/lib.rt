// What the engine's float definitions give on monomial blocks, the blocks of a register tape. Definitions stand in specs/, theorems in proofs/;
// there is no code.

#![tactic(auto)]
