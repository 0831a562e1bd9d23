// Running a plan: no code.
#![tactic(auto)]
