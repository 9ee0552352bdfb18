// What a command and an update keep: laws only.
#![tactic(auto)]
