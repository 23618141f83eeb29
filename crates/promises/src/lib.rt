// No code: what the step's definition promises. The laws stand in proofs/, what they speak of in specs/.
#![tactic(auto)]
