// The best run of a node, and how it is written by parts: no code.
#![tactic(auto)]
