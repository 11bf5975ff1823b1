// No calls: what is known of reading. The statements are in `specs/`, their proofs in `proofs/`.
#![tactic(auto)]
