// What a rate set makes of direct costs, and what processes quote by how they end (document 02, Paper 9), as definitions, claims and cases (specs/, proofs/).
// No code.
#![tactic(auto)]
