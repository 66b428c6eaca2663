// What the proofs of several crates share: see proofs/. There is no code.
#![tactic(auto)]
