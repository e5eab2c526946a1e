// What is claimed of a statistic: its value exactly, a value that bounds it, or nothing.
ghost use Rattle.std.specs.Prelude.{◌≡◌, Bool, true, false, ◌∷◌, Some, None, codes};
ghost use Rattle.std.specs.Fmt.{option_append};
ghost use Rattle.precision.specs.Claims.{inexactly, mapped, value_of, exact_of, inexact_of, is_exact, is_absent, zipped, transposed, Made, Equals, text_of};

use std::fmt;

#[derive(Debug, Default, PartialEq, Eq, Clone, Copy)]
pub enum Precision<T> {
    Exact(T),
    Inexact(T),
    #[default]
    Absent,
}

impl<T, E> Precision<Result<T, E>> {
    // A claim of a result turned into the result of a claim.
    pub fn transpose(self) -> Result<Precision<T>, E>
        ensures { result ≡ transposed self }
    {
        match self {
            Precision::Exact(Ok(value)) => Ok(Precision::Exact(value)),
            Precision::Exact(Err(error)) => Err(error),
            Precision::Inexact(Ok(value)) => Ok(Precision::Inexact(value)),
            Precision::Inexact(Err(error)) => Err(error),
            Precision::Absent => Ok(Precision::Absent),
        }
    }
}

impl<T: Copy> Precision<T> {
    // The claim made inexact.
    pub fn to_inexact(&self) -> Self
        ensures { result ≡ inexactly self.now }
    {
        (*self).into_inexact()
    }
}

impl<T> Precision<T> {
    // An exact claim of what the value converts to.
    pub fn exact<S>(s: S) -> Precision<T>
    where
        T: From<S>,
        ensures { Made (T.From.from_gives s) Precision.Exact result }
    {
        Precision::Exact(T::from(s))
    }

    // An inexact claim of what the value converts to. It and `exact` differ in the variant, which no parameter can be.
    pub fn inexact<S>(s: S) -> Precision<T>
    where
        T: From<S>,
        ensures { Made (T.From.from_gives s) Precision.Inexact result }
    {
        Precision::Inexact(T::from(s))
    }

    // The claim with its value lent.
    pub fn as_ref(&self) -> Precision<&T>
        ensures { mapped (λ x. x.now) result ≡ self.now }
    {
        match self {
            Precision::Exact(lent) => Precision::Exact(lent),
            Precision::Inexact(lent) => Precision::Inexact(lent),
            Precision::Absent => Precision::Absent,
        }
    }

    // The claim made inexact.
    pub fn into_inexact(self) -> Self
        ensures { result ≡ inexactly self }
    {
        match self {
            Precision::Exact(v) | Precision::Inexact(v) => Precision::Inexact(v),
            Precision::Absent => Precision::Absent,
        }
    }

    // The value of an exact claim.
    pub fn as_exact(self) -> Option<T>
    where
        T: Drop,
        ensures { result ≡ exact_of self }
    {
        match self {
            Precision::Exact(val) => Some(val),
            _ => None,
        }
    }

    // The value of an inexact claim. It and `as_exact` differ in the variant that they name, which no parameter can be.
    pub fn as_inexact(self) -> Option<T>
    where
        T: Drop,
        ensures { result ≡ inexact_of self }
    {
        match self {
            Precision::Inexact(val) => Some(val),
            _ => None,
        }
    }

    pub fn is_exact(&self) -> bool
        ensures { result ≡ is_exact self.now }
    {
        matches!(self, Precision::Exact(_))
    }

    pub fn is_absent(&self) -> bool
        ensures { result ≡ is_absent self.now }
    {
        matches!(self, Precision::Absent)
    }

    // Two claims as the claim of a pair, which is exact only if both are.
    pub fn zip<U>(self, other: Precision<U>) -> Precision<(T, U)>
    where
        T: Drop,
        U: Drop,
        ensures { result ≡ zipped self other }
    {
        match (self, other) {
            (Precision::Exact(lhs), Precision::Exact(rhs)) => Precision::Exact((lhs, rhs)),
            (Precision::Inexact(lhs), Precision::Exact(rhs)) => Precision::Inexact((lhs, rhs)),
            (Precision::Exact(lhs), Precision::Inexact(rhs)) => Precision::Inexact((lhs, rhs)),
            (Precision::Inexact(lhs), Precision::Inexact(rhs)) => Precision::Inexact((lhs, rhs)),
            _ => Precision::Absent,
        }
    }

    // The value, exact or not.
    pub fn into_inner(self) -> Option<T>
    where
        T: Drop,
        ensures { result ≡ value_of self }
    {
        match self {
            Precision::Exact(inner) | Precision::Inexact(inner) => Some(inner),
            Precision::Absent => None,
        }
    }
}

// `v`, `~v` or `{empty}`
impl<T: fmt::Display> fmt::Display for Precision<T> {
    ghost output = { λ c. text_of T.Display.output c };

    fn fmt<W: fmt::Write>(&self, f: &mut fmt::Formatter<W>) -> fmt::Result {
        match self {
            Precision::Exact(v) => write!(f, "{v}"),
            Precision::Inexact(v) => write!(f, "~{v}"),
            Precision::Absent => write!(f, "{{empty}}"),
        }
    }
}

impl<T: PartialEq> Precision<T> {
    // Only an exact claim equals a value. A method, since `PartialEq` compares values of one type.
    pub fn eq_value(&self, other: &T) -> bool
        ensures { Equals (λ x y r. r ≡ T.eq x y) self.now other.now result }
    {
        matches!(self, Precision::Exact(v) if v == other)
    }
}
