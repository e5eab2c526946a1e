#![tactic(auto)]
// The claims of the nine statistics, each a field of its own; absent where there is none.
ghost use Rattle.std.specs.Prelude.{◌≡◌, cond};
ghost use Rattle.precision.specs.declared.precision.Precision.TheVariants.{Absent as Nothing};
ghost use Rattle.claims.specs.Entries.{claim_in, with_claim, kept_claims, if_kept};

use precision::precision::Precision;
use stat::Stat;
use statement::StatValue;
use statement::kind::{Counts, Elements, Flags, Kind, Sums};

#[derive(Clone, Copy)]
pub struct Claims<E, S> {
    pub is_constant: Precision<bool>,
    pub is_sorted: Precision<bool>,
    pub is_strict_sorted: Precision<bool>,
    pub max: Precision<E>,
    pub min: Precision<E>,
    pub sum: Precision<S>,
    pub null_count: Precision<u64>,
    pub uncompressed_size_in_bytes: Precision<u64>,
    pub nan_count: Precision<u64>,
}

impl<E: Copy, S: Copy> Claims<E, S> {
    // No claim of anything.
    pub fn none() -> Self
        ensures { result ≡ record { is_constant = Nothing; is_sorted = Nothing; is_strict_sorted = Nothing; max = Nothing; min = Nothing; sum = Nothing; null_count = Nothing; uncompressed_size_in_bytes = Nothing; nan_count = Nothing } }
    {
        Claims {
            is_constant: Precision::Absent,
            is_sorted: Precision::Absent,
            is_strict_sorted: Precision::Absent,
            max: Precision::Absent,
            min: Precision::Absent,
            sum: Precision::Absent,
            null_count: Precision::Absent,
            uncompressed_size_in_bytes: Precision::Absent,
            nan_count: Precision::Absent,
        }
    }

    // The claim of a statistic.
    pub fn claim(&self, stat: Stat) -> Precision<StatValue<E, S>>
        ensures { result ≡ claim_in self.now stat }
    {
        match stat {
            Stat::IsConstant => Flags::claim(self.is_constant),
            Stat::IsSorted => Flags::claim(self.is_sorted),
            Stat::IsStrictSorted => Flags::claim(self.is_strict_sorted),
            Stat::Max => Elements::claim(self.max),
            Stat::Min => Elements::claim(self.min),
            Stat::Sum => Sums::claim(self.sum),
            Stat::NullCount => Counts::claim(self.null_count),
            Stat::UncompressedSizeInBytes => Counts::claim(self.uncompressed_size_in_bytes),
            Stat::NaNCount => Counts::claim(self.nan_count),
        }
    }

    // Writes the claim of a statistic, read by the statistic's kind.
    pub fn put(&mut self, stat: Stat, claim: Precision<StatValue<E, S>>)
        ensures { self.new ≡ with_claim self.old stat claim }
    {
        match stat {
            Stat::IsConstant => self.is_constant = Flags::claim_in(claim),
            Stat::IsSorted => self.is_sorted = Flags::claim_in(claim),
            Stat::IsStrictSorted => self.is_strict_sorted = Flags::claim_in(claim),
            Stat::Max => self.max = Elements::claim_in(claim),
            Stat::Min => self.min = Elements::claim_in(claim),
            Stat::Sum => self.sum = Sums::claim_in(claim),
            Stat::NullCount => self.null_count = Counts::claim_in(claim),
            Stat::UncompressedSizeInBytes => self.uncompressed_size_in_bytes = Counts::claim_in(
                claim,
            ),
            Stat::NaNCount => self.nan_count = Counts::claim_in(claim),
        }
    }

    // Only the claims that are marked, by number. Marks, and no closure, which would have to be required to be callable.
    pub fn keep(&mut self, keep: &[bool; 9])
        ensures { self.new ≡ kept_claims keep.now self.old }
    {
        *self = Claims {
            is_constant: kept(keep[0], self.is_constant),
            is_sorted: kept(keep[1], self.is_sorted),
            is_strict_sorted: kept(keep[2], self.is_strict_sorted),
            max: kept(keep[3], self.max),
            min: kept(keep[4], self.min),
            sum: kept(keep[5], self.sum),
            null_count: kept(keep[6], self.null_count),
            uncompressed_size_in_bytes: kept(keep[7], self.uncompressed_size_in_bytes),
            nan_count: kept(keep[8], self.nan_count),
        };
    }
}

fn kept<T: Copy>(keep: bool, claim: Precision<T>) -> Precision<T>
    ensures { result ≡ if_kept keep claim }
{
    if keep { claim } else { Precision::Absent }
}
