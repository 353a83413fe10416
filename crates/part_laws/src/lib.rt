// Which states are valid and what each call of the process part answers and leaves, in document 01's words (specs/), and that the definitions say so (proofs/).
#![tactic(auto)]
