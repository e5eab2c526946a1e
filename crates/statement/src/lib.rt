#![tactic(auto)]
// What is said of a statistic: its value, by kind, and the claim of it.
pub mod kind;
pub mod text;

use precision::precision::Precision;
use stat::Stat;

// The value of a statistic, by its kind.
#[derive(Clone, Copy, PartialEq, Eq, Debug)]
pub enum StatValue<E, S> {
    Flag(bool),
    Element(E),
    Sum(S),
    Count(u64),
}

// A statistic and what is claimed of it.
#[derive(Clone, Copy, PartialEq, Eq, Debug)]
pub struct Statement<E, S> {
    pub stat: Stat,
    pub claim: Precision<StatValue<E, S>>,
}
