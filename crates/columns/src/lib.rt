#![tactic(auto)]
// The two element types: measures, which are whole numbers, and marks, which name a piece of a lot.
pub mod mark;
pub mod measure;
