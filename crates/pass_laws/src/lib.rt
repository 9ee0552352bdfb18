// What a pass keeps: definitions and laws only.
#![tactic(auto)]
