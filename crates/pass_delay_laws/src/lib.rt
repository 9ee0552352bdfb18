// Delay units over passes in sequence: definitions and laws only.
#![tactic(auto)]
