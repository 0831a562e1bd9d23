// The three demands as theorems: the statements stand in specs/, a line or two of proof for each in proofs/.
#![tactic(auto)]
