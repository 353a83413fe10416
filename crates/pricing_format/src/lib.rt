// What document 02, Paper 9, says of quotes for a ticket and for a state, as definitions, cases and laws (specs/, proofs/). No code.
#![tactic(auto)]
