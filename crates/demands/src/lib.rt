// Theorems only, in proofs/, over definitions in specs/: SPECIFICATION 17.1 to 17.3 about the outcomes
// of search, check and widest table, for any two systems.
#![tactic(auto)]
