// The worked table of document 01.
#![tactic(auto)]
