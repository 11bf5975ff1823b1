// No calls: the calls that send, and all that is known of each. An inner crate.
#![tactic(auto)]
