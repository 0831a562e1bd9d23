// What a drum still wants to finish: no code.
#![tactic(auto)]
