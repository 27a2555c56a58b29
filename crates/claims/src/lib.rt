// What is claimed of trails, proved of the written meaning: laws, no code.

#![tactic(auto)]
