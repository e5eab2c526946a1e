#![tactic(auto)]
// Claims, exact or inexact or absent.
pub mod parse;
pub mod precision;
