// What lower and upper bounds do alike, each as seen from its side. What is left in either puts a claim into its own type,
// under the names of the Rust.
ghost use Rattle.std.specs.Prelude.{◌≡◌, Bool};
ghost use Rattle.stat_bound.specs.Bounds.{bound_equals, compared_by, intersection_by, union_by, Allows, Equates};

use crate::IntersectionResult;
use crate::IntersectionResult::{Empty, Value};
use order::ordered::Ordered;
use precision::precision::Precision;
use precision::precision::Precision::{Absent, Exact, Inexact};
use std::cmp::Ordering;

// The side from which a bound limits values: an inexact bound rules out each value that lies ahead of it.
pub trait Side<T: Ordered> {
    // Whether the first value lies ahead of the second.
    ghost ahead: { T → T → Bool };

    fn is_ahead(a: T, b: T) -> bool
        ensures { result ≡ ahead a b };

    // The bound of the rows of both: the claim whose value lies ahead, of equal values the exact one.
    final fn union_of(a: Precision<T>, b: Precision<T>) -> Option<Precision<T>>
        ensures { result ≡ union_by ahead a b }
    {
        Some(match (a, b) {
            (Exact(lhs), Exact(rhs)) | (Inexact(lhs), Inexact(rhs)) => {
                if Self::is_ahead(lhs, rhs) { a } else { b }
            }
            (Exact(exact), Inexact(limit)) | (Inexact(limit), Exact(exact)) => {
                if Self::is_ahead(limit, exact) {
                    Inexact(limit)
                } else {
                    Exact(exact)
                }
            }
            _ => return None,
        })
    }

    // The bound of rows that both speak of: an exact claim unless the other rules it out, or the inexact one that rules out more.
    final fn intersection_of(
        a: Precision<T>,
        b: Precision<T>,
    ) -> Option<IntersectionResult<Precision<T>>>
        ensures { result ≡ intersection_by T.order ahead (λ x y. ahead y x) a b }
    {
        Some(match (a, b) {
            (Exact(lhs), Exact(rhs)) if lhs.compare(rhs).is_eq() => Value(a),
            (Inexact(lhs), Inexact(rhs)) => Value(if Self::is_ahead(rhs, lhs) { a } else { b }),
            (Exact(exact), Inexact(limit)) | (Inexact(limit), Exact(exact))
                if !Self::is_ahead(exact, limit) => Value(Exact(exact)),
            (Absent, _) | (_, Absent) => return None,
            _ => Empty,
        })
    }

    // Whether a bound equals a value: only an exact one can.
    final fn equals(claim: Precision<T>, value: T) -> bool
        ensures { Equates (Allows ahead) (bound_equals T.order claim value) claim value result }
    {
        matches!(claim, Exact(exact) if exact.compare(value).is_eq())
    }

    // How a bound compares with a value: an exact one as its value does, an inexact one only with a value that it rules out.
    final fn compared(claim: Precision<T>, value: T) -> Option<Ordering>
        ensures { result ≡ compared_by T.order ahead claim value }
    {
        match claim {
            Exact(exact) => Some(exact.compare(value)),
            Inexact(limit) if Self::is_ahead(value, limit) => Some(limit.compare(value)),
            _ => None,
        }
    }
}
