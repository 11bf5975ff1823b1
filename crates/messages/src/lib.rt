// No calls: what a message is, its bytes, and the two round trips between writing and reading. An inner crate.
#![tactic(auto)]
