// A record written as a text, and that reading gives it back (SPECIFICATION 18.6, 18.7): definitions in specs/, laws in
// proofs/, no code.
#![tactic(auto)]
