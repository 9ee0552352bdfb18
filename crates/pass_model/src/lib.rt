// A pass by its definitions: the generators in an order, the modifiers by number, the whole call. Definitions and laws alone, no code.
#![tactic(auto)]
