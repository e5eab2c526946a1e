#![tactic(auto)]
// What a merge gives for each kind of statistic, from the claims of both sides.
ghost use Rattle.std.specs.Prelude.{◌≡◌};
ghost use Rattle.order.specs.Order.{below, above};
ghost use Rattle.stat_bound.specs.Bounds.{lower_union, upper_union};
ghost use Rattle.rules.specs.Merging.{or_absent, constant_rule, sorted_rule, sum_rule, count_rule};
ghost use Rattle.leaves.specs.Comparing.{in_step};

use lower_bound::LowerBound;
use order::ordered::Ordered;
use precision::precision::Precision;
use precision::precision::Precision::{Absent, Exact, Inexact};
use rules::element::Element;
use stat_bound::StatBound;
use upper_bound::UpperBound;

// How the greatest of the first part must compare with the least of the second for the whole to be sorted. Named, and no
// closure: who takes a closure requires of its callers that it may be called, and no public function here requires anything.
#[derive(Clone, Copy)]
pub enum Comparison {
    // at most: elements never fall
    Le,
    // below: they always rise
    Lt,
}

impl Comparison {
    pub fn holds<T: Ordered>(self, a: T, b: T) -> bool
        ensures { result ≡ in_step self T.Ordered.order a b }
    {
        match self {
            Comparison::Le => a.compare(b).is_le(),
            Comparison::Lt => a.compare(b).is_lt(),
        }
    }
}

// A part that is not constant makes the whole not constant; two constant parts are compared by their exact least elements.
pub fn merge_constant<T: Ordered>(
    mine: Precision<bool>,
    other: Precision<bool>,
    my_min: Precision<T>,
    other_min: Precision<T>,
) -> Precision<bool>
    ensures { result ≡ constant_rule T.Ordered.order mine other my_min other_min }
{
    match (mine, other) {
        (Exact(false), _) | (_, Exact(false)) => Exact(false),
        (Exact(true), Exact(true)) => match (my_min, other_min) {
            (Exact(a), Exact(b)) => Exact(a.compare(b).is_eq()),
            // without both, as for a part that is all null, the parts cannot be compared
            _ => Absent,
        },
        _ => Absent,
    }
}

// Two sorted parts stay sorted if the greatest of the first and the least of the second are in step.
pub fn merge_sortedness<T: Ordered>(
    comparison: Comparison,
    mine: Precision<bool>,
    other: Precision<bool>,
    my_max: Precision<T>,
    other_min: Precision<T>,
) -> Precision<bool>
    ensures { result ≡ sorted_rule (in_step comparison T.Ordered.order) mine other my_max other_min }
{
    let (Exact(true), Exact(true)) = (mine, other) else {
        return Absent;
    };
    let (Some(max), Some(min)) = (my_max.into_inner(), other_min.into_inner()) else {
        return Absent;
    };
    if comparison.holds(max, min) {
        Exact(true)
    } else {
        Inexact(false)
    }
}

// The greatest of both parts.
pub fn merge_max<T: Ordered>(mine: Precision<T>, other: Precision<T>) -> Precision<T>
    ensures { result ≡ or_absent (upper_union T.Ordered.order mine other) }
{
    merge_bound::<T, UpperBound<T>>(mine, other)
}

// The least of both parts.
pub fn merge_min<T: Ordered>(mine: Precision<T>, other: Precision<T>) -> Precision<T>
    ensures { result ≡ or_absent (lower_union T.Ordered.order mine other) }
{
    merge_bound::<T, LowerBound<T>>(mine, other)
}

// The claim of the union of two claims read as bounds.
fn merge_bound<T: Ordered, B: StatBound<T>>(mine: Precision<T>, other: Precision<T>) -> Precision<T>
    ensures { result ≡ or_absent (B.united mine other) }
{
    B::lift(mine)
        .union(&B::lift(other))
        .map_or(Absent, |bound| bound.into_value())
}

// Two exact sums that add. Anything else leaves the sum of both unknown.
pub fn merge_sum<E: Element>(mine: Precision<E::Sum>, other: Precision<E::Sum>) -> Precision<E::Sum>
    ensures { result ≡ sum_rule E.Element.sums.plus mine other }
{
    match (mine, other) {
        (Exact(a), Exact(b)) => E::plus(a, b).map_or(Absent, Exact),
        _ => Absent,
    }
}

// Two counts in a pair, exact only if both are, and added; nothing where the total is 2^64 or more.
pub fn merge_count(mine: Precision<u64>, other: Precision<u64>) -> Precision<u64>
    ensures { result ≡ count_rule mine other }
{
    match mine.zip(other) {
        Exact((a, b)) => a.checked_add(b).map_or(Absent, Exact),
        Inexact((a, b)) => a.checked_add(b).map_or(Absent, Inexact),
        Absent => Absent,
    }
}
