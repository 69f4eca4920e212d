// Theorems only, in specs/: what the programs print for the posts (SPECIFICATION 16.3 to 16.5, 17.4).
#![tactic(auto)]
