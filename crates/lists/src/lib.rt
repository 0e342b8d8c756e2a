#![tactic(auto)]

// Lists, places and answers: definitions (specs/) and laws (proofs/), and no code.
