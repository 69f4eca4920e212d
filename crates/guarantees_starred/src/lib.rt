// One theorem, in proofs/, over sentences in specs/: the starred posts, that is the examples that are proved
// (SPECIFICATION 16.2 to 16.6, 17.4).
#![tactic(auto)]
