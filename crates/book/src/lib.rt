#![tactic(auto)]
// The book of an index of zones and its laws: definitions and proofs for the crates above, and no code.
