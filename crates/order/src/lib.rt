#![tactic(auto)]
// Ordered types, and the lesser and the greater of two of their values.
pub mod ordered;
pub mod partial_ord;
