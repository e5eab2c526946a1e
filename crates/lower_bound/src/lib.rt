#![tactic(auto)]
// Lower bounds.
ghost use Rattle.std.specs.Prelude.{◌≡◌};
ghost use Rattle.order.specs.Order.{below, lesser};
ghost use Rattle.precision.specs.Claims.{value_of, is_exact as exactness};
ghost use Rattle.stat_bound.specs.Bounds.{LowerAllows, lower_union, lower_intersection, bound_equals, Equates, lower_compared, Compares};
ghost use Rattle.stat_bound.specs.Laws.{lower_intersects, lower_unites};
ghost use Rattle.std.proofs.Common.{rules};

use order::ordered::Ordered;
use precision::precision::Precision;
use precision::precision::Precision::Inexact;
use stat_bound::side::Side;
use stat_bound::{IntersectionResult, StatBound};
use std::cmp::Ordering;

// The value as a lower bound: exact only itself, inexact itself and above.
#[derive(Clone, Copy, PartialEq, Eq, Debug)]
pub struct LowerBound<T>(pub Precision<T>);

impl<T> LowerBound<T> {
    // The value, exact or not.
    pub fn min_value(self) -> Option<T>
    where
        T: Drop,
        ensures { result ≡ value_of self.0 }
    {
        self.0.into_inner()
    }

    pub fn is_exact(&self) -> bool
        ensures { result ≡ exactness self.now.0 }
    {
        self.0.is_exact()
    }
}

impl<T: Ordered> StatBound<T> for LowerBound<T> {
    ghost claim = { λ b. b.0 };

    ghost lifted = { λ c. record { 0 = c } };

    ghost allows = { LowerAllows T.Ordered.order };

    ghost picked = { lesser T.Ordered.order };

    ghost united = { lower_union T.Ordered.order };

    ghost met = { lower_intersection T.Ordered.order };

    ghost claimed = { Prim.search rules };

    ghost whole = { Prim.search rules };

    ghost intersects = { lower_intersects T.Ordered.order T.Ordered.ordered };

    ghost unites = { lower_unites T.Ordered.order T.Ordered.ordered };

    fn lift(value: Precision<T>) -> Self
        ensures { result ≡ record { 0 = value } }
    {
        LowerBound(value)
    }

    fn into_value(self) -> Precision<T>
        ensures { result ≡ self.0 }
    {
        let LowerBound(claim) = self;
        claim
    }

    fn to_exact(&self) -> Option<&T> {
        self.0.to_exact()
    }

    fn union(&self, other: &Self) -> Option<Self> {
        Some(LowerBound(Self::union_of(self.0, other.0)?))
    }

    // The claim that both bounds come to, in the type of this one; the other bound differs in the type alone.
    fn intersection(&self, other: &Self) -> Option<IntersectionResult<Self>> {
        Some(match Self::intersection_of(self.0, other.0)? {
            IntersectionResult::Value(claim) => IntersectionResult::Value(LowerBound(claim)),
            IntersectionResult::Empty => IntersectionResult::Empty,
        })
    }
}

// A lower bound limits from below: what is below lies ahead.
impl<T: Ordered> Side<T> for LowerBound<T> {
    ghost ahead = { below T.Ordered.order };

    fn is_ahead(a: T, b: T) -> bool {
        a.compare(b).is_lt()
    }
}

impl<T: Ordered> LowerBound<T> {
    // Only an exact bound equals a value. A method, since `PartialEq` compares values of one type.
    pub fn eq_value(&self, other: &T) -> bool
        ensures { Equates (LowerAllows T.order) (bound_equals T.order self.now.0 other.now) self.now.0 other.now result }
    {
        Self::equals(self.0, *other)
    }

    // An exact bound compares as its value does; an inexact one can only be known to be above a value. A method, since
    // `PartialOrd` compares values of one type.
    pub fn partial_cmp_value(&self, other: &T) -> Option<Ordering>
        ensures { Compares T.order (LowerAllows T.order) (lower_compared T.order self.now.0 other.now) self.now.0 other.now result }
    {
        match self.0 {
            // one comparison: known alone where the bound is above the value
            Inexact(limit) => match limit.compare(*other) {
                Ordering::Greater => Some(Ordering::Greater),
                _ => None,
            },
            known => Self::compared(known, *other),
        }
    }
}
