// Reading a sheet byte by byte, and that it finds the sheets and no others: no code.
#![tactic(auto)]
