// Sheets: their text, their rules, the nodes made of them and the runs they mean: no code.
#![tactic(auto)]
