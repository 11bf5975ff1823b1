// No calls: the theorem on two ends and their pipes. An inner crate.
#![tactic(auto)]
