// What is claimed of a bench file that is rung by an order: laws only.
#![tactic(auto)]
