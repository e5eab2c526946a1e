#![tactic(auto)]
// Upper bounds.
ghost use Rattle.std.specs.Prelude.{◌≡◌};
ghost use Rattle.order.specs.Order.{above, greater};
ghost use Rattle.precision.specs.Claims.{value_of, is_exact as exactness};
ghost use Rattle.stat_bound.specs.Bounds.{UpperAllows, upper_union, upper_intersection, bound_equals, Equates, upper_compared, Compares};
ghost use Rattle.stat_bound.specs.Laws.{upper_intersects, upper_unites};
ghost use Rattle.std.proofs.Common.{rules};

use order::ordered::Ordered;
use precision::precision::Precision;
use precision::precision::Precision::Inexact;
use stat_bound::side::Side;
use stat_bound::{IntersectionResult, StatBound};
use std::cmp::Ordering;

// The value as an upper bound: exact only itself, inexact itself and below.
#[derive(Clone, Copy, PartialEq, Eq, Debug)]
pub struct UpperBound<T>(pub Precision<T>);

impl<T> UpperBound<T> {
    // The value, exact or not.
    pub fn max_value(self) -> Option<T>
    where
        T: Drop,
        ensures { result ≡ value_of self.0 }
    {
        self.0.into_inner()
    }

    pub fn is_exact(&self) -> bool
        ensures { result ≡ exactness self.now.0 }
    {
        self.0.is_exact()
    }
}

impl<T: Ordered> StatBound<T> for UpperBound<T> {
    ghost claim = { λ b. b.0 };

    ghost lifted = { λ c. record { 0 = c } };

    ghost allows = { UpperAllows T.Ordered.order };

    ghost picked = { greater T.Ordered.order };

    ghost united = { upper_union T.Ordered.order };

    ghost met = { upper_intersection T.Ordered.order };

    ghost claimed = { Prim.search rules };

    ghost whole = { Prim.search rules };

    ghost intersects = { upper_intersects T.Ordered.order T.Ordered.ordered };

    ghost unites = { upper_unites T.Ordered.order T.Ordered.ordered };

    fn lift(value: Precision<T>) -> Self
        ensures { result ≡ record { 0 = value } }
    {
        UpperBound(value)
    }

    fn into_value(self) -> Precision<T>
        ensures { result ≡ self.0 }
    {
        let UpperBound(claim) = self;
        claim
    }

    fn to_exact(&self) -> Option<&T> {
        self.0.to_exact()
    }

    fn union(&self, other: &Self) -> Option<Self> {
        Some(UpperBound(Self::union_of(self.0, other.0)?))
    }

    // The claim that both bounds come to, in the type of this one; the other bound differs in the type alone.
    fn intersection(&self, other: &Self) -> Option<IntersectionResult<Self>> {
        Some(match Self::intersection_of(self.0, other.0)? {
            IntersectionResult::Value(claim) => IntersectionResult::Value(UpperBound(claim)),
            IntersectionResult::Empty => IntersectionResult::Empty,
        })
    }
}

// An upper bound limits from above: what is above lies ahead.
impl<T: Ordered> Side<T> for UpperBound<T> {
    ghost ahead = { above T.Ordered.order };

    fn is_ahead(a: T, b: T) -> bool {
        a.compare(b).is_gt()
    }
}

impl<T: Ordered> UpperBound<T> {
    // Only an exact bound equals a value. A method, since `PartialEq` compares values of one type.
    pub fn eq_value(&self, other: &T) -> bool
        ensures { Equates (UpperAllows T.order) (bound_equals T.order self.now.0 other.now) self.now.0 other.now result }
    {
        Self::equals(self.0, *other)
    }

    // An exact bound compares as its value does; an inexact one can only be known to be below a value. A method, since
    // `PartialOrd` compares values of one type.
    pub fn partial_cmp_value(&self, other: &T) -> Option<Ordering>
        ensures { Compares T.order (UpperAllows T.order) (upper_compared T.order self.now.0 other.now) self.now.0 other.now result }
    {
        match self.0 {
            // one comparison: known alone where the bound is below the value
            Inexact(limit) => match limit.compare(*other) {
                Ordering::Less => Some(Ordering::Less),
                _ => None,
            },
            known => Self::compared(known, *other),
        }
    }
}
