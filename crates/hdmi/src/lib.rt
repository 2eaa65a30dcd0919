#![tactic(auto)]

// Definitions and theorems alone, no code: see specs/ for the standards' words and proofs/ for their theorems.
