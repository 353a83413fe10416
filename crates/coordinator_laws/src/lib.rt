// What is true of the coordinator's rounds: the claims (specs/) and the laws (proofs/), over the definitions of `coordinator`.
#![tactic(auto)]
