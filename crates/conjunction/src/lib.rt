// Definitions and theorems only: the conjunction of two systems over one signature, and what satisfies it
// (SPECIFICATION 18.1). The conjunction itself holds proofs, so it stands in proofs/.
#![tactic(auto)]
