#![tactic(auto)]
// A claim read as a bound: what values it allows, and the union and the intersection of two of them.
pub mod side;

ghost use Rattle.std.specs.Prelude.{◌≡◌, Option as Maybe};
ghost use Rattle.std.specs.Option.{option_map};
ghost use Rattle.order.specs.Order.{lesser};
ghost use Rattle.precision.specs.declared.precision.Precision.{Precision as Claim};
ghost use Rattle.stat_bound.specs.declared.IntersectionResult.{IntersectionResult as Meet};
ghost use Rattle.precision.specs.Claims.{exact_of};
ghost use Rattle.stat_bound.specs.Bounds.{met_by, IntersectionLaw, UnionLaw, PrecisionAllows, precision_union, precision_intersection};
ghost use Rattle.stat_bound.specs.Laws.{precision_intersects, precision_unites};
ghost use Rattle.std.proofs.Common.{rules};

use order::ordered::Ordered;
use order::partial_ord::partial_min;
use precision::precision::Precision;

// What two bounds have in common: a bound, or no value at all. The Rust's type, and no `Option`, since it stands in one: bounds
// may answer nothing where a side claims nothing.
#[derive(Clone, Copy, PartialEq, Eq, Debug)]
pub enum IntersectionResult<T> {
    Value(T),
    Empty,
}

pub trait StatBound<T: Ordered>: Copy {
    // The claim behind a bound, and the bound that a claim is.
    ghost claim: { Self → Claim T };

    ghost lifted: { Claim T → Self };

    // The values that a claim allows, and the one that a union is for of any two of them.
    ghost allows: { Claim T → T → Type 0 };

    ghost picked: { T → T → T };

    ghost united: { Claim T → Claim T → Maybe (Claim T) };

    ghost met: { Claim T → Claim T → Maybe (Meet (Claim T)) };

    fn lift(value: Precision<T>) -> Self
        ensures { result ≡ lifted value };

    fn into_value(self) -> Precision<T>
        ensures { result ≡ claim self };

    fn to_exact(&self) -> Option<&T>
        ensures { option_map (λ x. x.now) result ≡ exact_of (claim self.now) };

    // The bound of the rows of both.
    fn union(&self, other: &Self) -> Option<Self>
        ensures { result ≡ option_map lifted (united (claim self.now) (claim other.now)) };

    // The bound of rows that both speak of.
    fn intersection(&self, other: &Self) -> Option<IntersectionResult<Self>>
        ensures { result ≡ met_by lifted (met (claim self.now) (claim other.now)) };

    ghost claimed: { (c : Claim T) → claim (lifted c) ≡ c };

    ghost whole: { (b : Self) → lifted (claim b) ≡ b };

    ghost intersects: { IntersectionLaw allows met };

    ghost unites: { UnionLaw allows picked united };
}

// A claim as a bound of its own: exact only its value, inexact every value.
impl<T: Ordered> StatBound<T> for Precision<T> {
    ghost claim = { λ c. c };

    ghost lifted = { λ c. c };

    ghost allows = { PrecisionAllows };

    ghost picked = { lesser T.Ordered.order };

    ghost united = { precision_union T.Ordered.order };

    ghost met = { precision_intersection T.Ordered.order };

    ghost claimed = { Prim.search rules };

    ghost whole = { Prim.search rules };

    ghost intersects = { precision_intersects T.Ordered.order T.Ordered.ordered };

    ghost unites = { precision_unites T.Ordered.order };

    fn lift(value: Precision<T>) -> Self
        ensures { result ≡ value }
    {
        value
    }

    fn into_value(self) -> Precision<T>
        ensures { result ≡ self }
    {
        self
    }

    // A match, no longer than `as_exact` of the lent claim.
    fn to_exact(&self) -> Option<&T> {
        match self {
            Precision::Exact(exact) => Some(exact),
            _ => None,
        }
    }

    fn union(&self, other: &Self) -> Option<Self> {
        match self.zip(*other) {
            Precision::Exact((lhs, rhs)) => Some(Precision::Exact(partial_min(lhs, rhs)?)),
            Precision::Inexact((lhs, rhs)) => Some(Precision::Inexact(partial_min(lhs, rhs)?)),
            Precision::Absent => None,
        }
    }

    // An exact claim stays exact, whatever the inexact one is.
    fn intersection(&self, other: &Self) -> Option<IntersectionResult<Self>> {
        Some(match (*self, *other) {
            (Precision::Exact(lhs), Precision::Exact(rhs)) => {
                if lhs.compare(rhs).is_eq() {
                    IntersectionResult::Value(Precision::Exact(lhs))
                } else {
                    IntersectionResult::Empty
                }
            }
            (Precision::Exact(exact), Precision::Inexact(_))
            | (Precision::Inexact(_), Precision::Exact(exact)) => IntersectionResult::Value(
                Precision::Exact(exact),
            ),
            (Precision::Inexact(lhs), Precision::Inexact(rhs)) => IntersectionResult::Value(
                Precision::Inexact(partial_min(lhs, rhs)?),
            ),
            _ => IntersectionResult::Empty,
        })
    }
}
