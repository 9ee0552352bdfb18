// Machines that differ in the counter's high bits alone, and that they pass, update and ring alike.
#![tactic(auto)]
