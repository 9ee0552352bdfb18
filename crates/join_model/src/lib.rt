// Two machines joined: definitions, and laws of the joined machine. No code.
#![tactic(auto)]
