// Lists that are given by a rule: definitions and laws alone, no code.
#![tactic(auto)]
