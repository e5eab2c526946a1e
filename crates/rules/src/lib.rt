#![tactic(auto)]
// What the rules speak of: elements and their sums, and who tells statements.
pub mod element;
pub mod provider;
