// No calls: what crosses at the server's end of two ends of the library is a capture that passes. The statement is in `specs/`, its proof in
// `proofs/`.
#![tactic(auto)]
