// Blocks beside what is heard, and blocks joined: definitions and laws only.
#![tactic(auto)]
