// How long an accepted file, a listing and a report can be: laws, no code.

#![tactic(auto)]
