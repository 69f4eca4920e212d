// The channels of a text that is read have names that can be written again (SPECIFICATION 18.6): definitions and laws
// in specs/, no code.
#![tactic(auto)]
