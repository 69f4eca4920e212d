// Theorems only: what reading promises of an accepted text.
#![tactic(auto)]
