// Definitions and laws alone: everything is in specs/ and proofs/.
#![tactic(auto)]
