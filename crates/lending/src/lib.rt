// What a walk over a lent cell adds up: so much is added, and the rest is still to come. No code.

#![tactic(auto)]
