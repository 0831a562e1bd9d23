// How many parts are held at once: no code.
#![tactic(auto)]
