// What modifiers see by the numbers of a chain: definitions and laws alone, no code.
#![tactic(auto)]
