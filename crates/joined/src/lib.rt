// Definitions (specs/) and theorems (proofs/) only: the joining of two contract texts, from two records to one
// (SPECIFICATION 18).
#![tactic(auto)]
