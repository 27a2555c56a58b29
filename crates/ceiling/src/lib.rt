// How many step calls can change a cell, and no more, proved of the written meaning: laws, no code.

#![tactic(auto)]
