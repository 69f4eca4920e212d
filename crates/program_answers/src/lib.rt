// Theorems only, in proofs/, over definitions in specs/: what the lines that programs megzhoi and implementation print
// mean (SPECIFICATION 14.2, 14.4, 14.7, 17.5, 17.8).
#![tactic(auto)]
