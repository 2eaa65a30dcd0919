#![tactic(auto)]

// Laws alone, no code: see specs/ for the vocabulary and proofs/ for the laws.
