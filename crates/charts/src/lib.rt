#![tactic(auto)]

// Definitions and laws alone, no code: see specs/ for what the tables of a row hold, and proofs/ for DVI 1.0's charts in the machine's arithmetic.
