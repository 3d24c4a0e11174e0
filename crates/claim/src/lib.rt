// The register claim for whole tapes: parsing, fusing, ordering, operations and state together. It stands in specs/ (meaning) and proofs/; there is no code.

#![tactic(auto)]
