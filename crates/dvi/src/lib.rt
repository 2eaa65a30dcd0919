#![tactic(auto)]

// Definitions and laws alone, no code: see specs/ for DVI 1.0's words and proofs/ for its theorems.
