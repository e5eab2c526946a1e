#![tactic(auto)]
// A set of statistics: at most one claim of each of the nine, in the order of first setting.
pub mod stats_set;
