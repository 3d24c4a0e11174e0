// Gates in place of maps: from gate matrices to the covariance, in exact numbers. It stands in specs/ (meaning) and proofs/; there is no code.

#![tactic(auto)]
