// The postponed signs against the plain engine: from the vacuum, whatever the operations, both have the same covariance and answer alike, zero signs aside. It
// stands in specs/ (meaning) and proofs/; there is no code.

#![tactic(auto)]
