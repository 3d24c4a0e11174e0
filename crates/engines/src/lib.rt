// The register claim asked of engines: it holds of this one, and of wrong ones it is proved false. It stands in specs/ (the engines) and proofs/;
// there is no code.

#![tactic(auto)]
