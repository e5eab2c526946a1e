#![tactic(auto)]
// Each statistic as a type, which names the bound that its claims are.
ghost use Rattle.std.specs.Prelude.{◌≡◌};
ghost use Rattle.stat_type.specs.Bounded.{bounded, narrowed};

use lower_bound::LowerBound;
use order::ordered::Ordered;
use precision::precision::Precision;
use stat::Stat;
use stat_bound::{IntersectionResult, StatBound};
use upper_bound::UpperBound;

pub trait StatType<T: Ordered> {
    type Bound: StatBound<T>;

    const STAT: Stat;
}

// Nine types, as in the Rust: each names its own bound and its own statistic.

pub struct Max;

pub struct Min;

pub struct Sum;

pub struct IsConstant;

pub struct IsSorted;

pub struct IsStrictSorted;

pub struct NullCount;

pub struct UncompressedSizeInBytes;

pub struct NaNCount;

impl StatType<bool> for IsConstant {
    type Bound = Precision<bool>;

    const STAT: Stat = Stat::IsConstant;
}

impl StatType<bool> for IsSorted {
    type Bound = Precision<bool>;

    const STAT: Stat = Stat::IsSorted;
}

impl StatType<bool> for IsStrictSorted {
    type Bound = Precision<bool>;

    const STAT: Stat = Stat::IsStrictSorted;
}

impl<T: Ordered> StatType<T> for NullCount {
    type Bound = UpperBound<T>;

    const STAT: Stat = Stat::NullCount;
}

impl<T: Ordered> StatType<T> for UncompressedSizeInBytes {
    type Bound = UpperBound<T>;

    const STAT: Stat = Stat::UncompressedSizeInBytes;
}

impl<T: Ordered> StatType<T> for Max {
    type Bound = UpperBound<T>;

    const STAT: Stat = Stat::Max;
}

impl<T: Ordered> StatType<T> for Min {
    type Bound = LowerBound<T>;

    const STAT: Stat = Stat::Min;
}

impl<T: Ordered> StatType<T> for Sum {
    type Bound = Precision<T>;

    const STAT: Stat = Stat::Sum;
}

impl<T: Ordered> StatType<T> for NaNCount {
    type Bound = UpperBound<T>;

    const STAT: Stat = Stat::NaNCount;
}

// A claim that is not absent, lifted into the bound of a statistic.
pub fn bound<T: Ordered, S: StatType<T>>(claim: Precision<T>) -> Option<S::Bound>
    ensures { result ≡ bounded S.Bound.StatBound.lifted claim }
{
    match claim {
        Precision::Absent => None,
        _ => Some(S::Bound::lift(claim)),
    }
}

// Two claims of the same rows in one: their intersection, or the one that is there; none where they contradict each other.
pub fn combine_bound<T: Ordered, S: StatType<T>>(
    mine: Precision<T>,
    told: Precision<T>,
) -> Option<Precision<T>>
    ensures { result ≡ narrowed S.Bound.StatBound.met mine told }
{
    let (Some(m1), Some(m2)) = (bound::<T, S>(mine), bound::<T, S>(told)) else {
        return Some(if mine.is_absent() { told } else { mine });
    };
    match m1.intersection(&m2) {
        Some(IntersectionResult::Value(meet)) => Some(meet.into_value()),
        _ => None,
    }
}
