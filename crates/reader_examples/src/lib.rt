// Theorems only: the eight posts (SPECIFICATION 16.1), and refusals, read by the definition.
#![tactic(auto)]
