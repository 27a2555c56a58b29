// What holds of the walks that were once taken by hand, turn by turn: each law stands as it stood. No code.

#![tactic(auto)]
