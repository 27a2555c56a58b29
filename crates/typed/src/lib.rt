// No code: what is proved of texts that are read stands in specs/.

#![tactic(auto)]
