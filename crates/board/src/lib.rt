// What the calls of a board answer, and how its drums then stand: no code.
#![tactic(auto)]
