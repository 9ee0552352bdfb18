// Bells in one ring over passes: definitions and laws only.
#![tactic(auto)]
