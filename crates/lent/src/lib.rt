// What is known of a lent cell before an element of it is read, for the walks over it: that its two sets are words. No code.

#![tactic(auto)]
