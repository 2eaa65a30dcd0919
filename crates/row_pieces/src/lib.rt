#![tactic(auto)]

// Definitions and theorems alone, no code: see specs/ for a row that goes in pieces and proofs/ for what the calls give.
