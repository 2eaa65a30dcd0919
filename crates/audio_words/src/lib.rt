#![tactic(auto)]

// Definitions and laws alone, no code: see specs/ for the words of the audio packet and proofs/ for what they hold.
