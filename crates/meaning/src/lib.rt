// What a book means: no code.
#![tactic(auto)]
