// No code: facts about tests, lists and numbers that the proofs of the other crates share.
#![tactic(auto)]
