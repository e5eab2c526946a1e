// The four kinds of value, each as a type: how a value of it stands among those of every kind, and is read back.
ghost use Rattle.std.specs.Prelude.{◌≡◌, Option as Maybe, Some};
ghost use Rattle.precision.specs.Claims.{mapped};
ghost use Rattle.statement.specs.declared.StatValue.{StatValue as Valued};
ghost use Rattle.statement.specs.declared.StatValue.TheVariants.{Flag, Element, Sum, Count};
ghost use Rattle.statement.specs.Kinds.{parted, flag_in, element_in, sum_in, count_in};
ghost use Rattle.std.proofs.Common.{rules};

use crate::StatValue;
use precision::precision::Precision;

pub trait Kind<E: Copy, S: Copy> {
    type Value: Copy;

    // A value among those of every kind, and the part of one that is of this kind.
    ghost wrapped: { Self.Value → Valued E S };

    ghost part: { Valued E S → Maybe Self.Value };

    fn wrap(value: Self::Value) -> StatValue<E, S>
        ensures { result ≡ wrapped value };

    // The value, if it is of this kind.
    fn read(value: StatValue<E, S>) -> Option<Self::Value>
        ensures { result ≡ part value };

    // A claim of this kind as the claim of any value.
    final fn claim(claim: Precision<Self::Value>) -> Precision<StatValue<E, S>>
        ensures { result ≡ mapped wrapped claim }
    {
        match claim {
            Precision::Exact(v) => Precision::Exact(Self::wrap(v)),
            Precision::Inexact(v) => Precision::Inexact(Self::wrap(v)),
            Precision::Absent => Precision::Absent,
        }
    }

    // A claim of any value as one of this kind; a value of another kind is no claim.
    final fn claim_in(claim: Precision<StatValue<E, S>>) -> Precision<Self::Value>
        ensures { result ≡ parted part claim }
    {
        match claim {
            Precision::Exact(v) => Self::read(v).map_or(Precision::Absent, Precision::Exact),
            Precision::Inexact(v) => Self::read(v).map_or(Precision::Absent, Precision::Inexact),
            Precision::Absent => Precision::Absent,
        }
    }

    // What is wrapped is read back.
    ghost read_back: { (v : Self.Value) → part (wrapped v) ≡ Some v };
}

// Four impls, since each names its own variant.
pub struct Flags;

pub struct Elements;

pub struct Sums;

pub struct Counts;

impl<E: Copy, S: Copy> Kind<E, S> for Flags {
    type Value = bool;

    ghost wrapped = { Flag };

    ghost part = { flag_in };

    ghost read_back = { Prim.search rules };

    fn wrap(value: bool) -> StatValue<E, S> {
        StatValue::Flag(value)
    }

    fn read(value: StatValue<E, S>) -> Option<bool>
        ensures { result ≡ flag_in value }
    {
        match value {
            StatValue::Flag(flag) => Some(flag),
            _ => None,
        }
    }
}

impl<E: Copy, S: Copy> Kind<E, S> for Elements {
    type Value = E;

    ghost wrapped = { Element };

    ghost part = { element_in };

    ghost read_back = { Prim.search rules };

    fn wrap(value: E) -> StatValue<E, S> {
        StatValue::Element(value)
    }

    fn read(value: StatValue<E, S>) -> Option<E>
        ensures { result ≡ element_in value }
    {
        match value {
            StatValue::Element(element) => Some(element),
            _ => None,
        }
    }
}

impl<E: Copy, S: Copy> Kind<E, S> for Sums {
    type Value = S;

    ghost wrapped = { Sum };

    ghost part = { sum_in };

    ghost read_back = { Prim.search rules };

    fn wrap(value: S) -> StatValue<E, S> {
        StatValue::Sum(value)
    }

    fn read(value: StatValue<E, S>) -> Option<S>
        ensures { result ≡ sum_in value }
    {
        match value {
            StatValue::Sum(sum) => Some(sum),
            _ => None,
        }
    }
}

impl<E: Copy, S: Copy> Kind<E, S> for Counts {
    type Value = u64;

    ghost wrapped = { Count };

    ghost part = { count_in };

    ghost read_back = { Prim.search rules };

    fn wrap(value: u64) -> StatValue<E, S> {
        StatValue::Count(value)
    }

    fn read(value: StatValue<E, S>) -> Option<u64>
        ensures { result ≡ count_in value }
    {
        match value {
            StatValue::Count(count) => Some(count),
            _ => None,
        }
    }
}
