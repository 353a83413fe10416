// Definitions and proofs only: specs/ and proofs/.
#![tactic(auto)]
