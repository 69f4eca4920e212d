// Theorems only, in proofs/, over definitions in specs/: what the operations promise, in the words of the demands
// (SPECIFICATION 17.1 to 17.3).
#![tactic(auto)]
