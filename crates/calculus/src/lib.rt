// The published calculus beside the plain tree: definitions and laws, no code.

#![tactic(auto)]
