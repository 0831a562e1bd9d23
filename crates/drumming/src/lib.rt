// A drum by one good plan: no code.
#![tactic(auto)]
