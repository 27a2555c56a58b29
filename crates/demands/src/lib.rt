// Demands 1 to 3, proved of the written meaning: laws, no code.

#![tactic(auto)]
