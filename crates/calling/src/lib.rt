// A board's calls by one plan, as a caller meets them: no code.
#![tactic(auto)]
