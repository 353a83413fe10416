// Which texts are tickets and which are refused, in document 01's words (specs/), and that reading says so (proofs/).
#![tactic(auto)]
