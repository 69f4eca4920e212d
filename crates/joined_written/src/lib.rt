// Specs only: the joined record written as a text and read again (SPECIFICATION 17.10, 18).
#![tactic(auto)]
