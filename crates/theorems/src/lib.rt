#![tactic(auto)]

// What follows from the definitions of meshing beyond the calls' contracts: definitions (specs/) and theorems (proofs/), and no code.
