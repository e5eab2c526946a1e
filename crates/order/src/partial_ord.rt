// The lesser and the greater of two values. Any two values of an ordered type compare, so the answer is always there.
// Two functions, as in the Rust: which way the comparison goes is all that differs.
ghost use Rattle.std.specs.Prelude.{◌≡◌, IsSomeAnd, Some};
ghost use Rattle.order.specs.Order.{lesser, greater, Lowest, Highest};

use crate::ordered::Ordered;

// The first if it is below the second, else the second: of equal values the second, which is the same value.
pub fn partial_min<T: Ordered>(a: T, b: T) -> Option<T>
    ensures value { result ≡ Some (lesser T.Ordered.order a b) }
    ensures lowest { IsSomeAnd result (Lowest T.Ordered.order a b) }
{
    Some(if a.compare(b).is_lt() { a } else { b })
}

// The first if it is above the second, else the second: of equal values the second, which is the same value.
pub fn partial_max<T: Ordered>(a: T, b: T) -> Option<T>
    ensures value { result ≡ Some (greater T.Ordered.order a b) }
    ensures highest { IsSomeAnd result (Highest T.Ordered.order a b) }
{
    Some(if a.compare(b).is_gt() { a } else { b })
}
