// What the demands and the scope document claim beyond the contracts of the calls. Definitions and proofs alone, no code.
#![tactic(auto)]
