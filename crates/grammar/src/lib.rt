// What a book derives, and the rules of figure 5: no code.
#![tactic(auto)]
