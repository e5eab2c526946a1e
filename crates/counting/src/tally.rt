// What counting keeps while it goes through the rows, and the set that it fills from that. Contracts take the order and the sums
// by themselves: a tally has no column.
ghost use Rattle.std.specs.Prelude.{◌≡◌, ◌+◌, ◌^◌, ◌<◌, length, Some as Just};
ghost use Rattle.std.specs.List.{slice_get};
ghost use Rattle.stat.specs.Stats.{all_stats};
ghost use Rattle.rules.specs.Merging.{exactly};
ghost use Rattle.set.specs.Viewed.{entries};
ghost use Rattle.counting.specs.Tallied.{seen_with, fresh, with_row, no_two, tally_claim, all_put, present};

use order::ordered::Ordered;
use order::partial_ord::{partial_max, partial_min};
use precision::precision::Precision;
use rules::element::Element;
use set::stats_set::StatsSet;
use stat::Stat;
use statement::kind::{Counts, Elements, Flags, Kind, Sums};
use statement::{StatValue, Statement};

// The least, the greatest and the last element so far.
#[derive(Clone, Copy)]
pub(crate) struct Seen<E> {
    least: E,
    most: E,
    last: E,
}

impl<E: Element> Seen<E> {
    // One element more.
    fn with(self, v: E) -> Self
        ensures { result ≡ seen_with E.Ordered.order (Just self) v }
    {
        Seen {
            least: partial_min(self.least, v).unwrap(),
            most: partial_max(self.most, v).unwrap(),
            last: v,
        }
    }
}

#[derive(Clone, Copy)]
pub(crate) struct Tally<E, S> {
    // nothing while every row was null
    seen: Option<Seen<E>>,
    // whether the elements never fell
    sorted: bool,
    // whether they always rose
    strict: bool,
    nulls: u64,
    // nothing once a running total did not fit
    sum: Option<S>,
}

impl<E: Element> Tally<E, E::Sum> {
    // Before the first row.
    pub(crate) fn start() -> Self
        ensures { result ≡ fresh E.Element.sums }
    {
        Tally {
            seen: None,
            sorted: true,
            strict: true,
            nulls: 0,
            sum: Some(E::zero()),
        }
    }

    // One row more. A running total that was lost stays lost.
    pub(crate) fn fed(self, row: Option<E>) -> Self
        requires { self.nulls + 1 < 2 ^ 64 }
        ensures { result ≡ with_row E.Ordered.order E.Element.sums self row }
    {
        let Some(v) = row else {
            return Tally {
                nulls: self.nulls + 1,
                ..self
            };
        };
        let first = Seen {
            least: v,
            most: v,
            last: v,
        };
        Tally {
            seen: Some(self.seen.map_or(first, |seen| seen.with(v))),
            sorted: self.sorted & self.seen.is_none_or(|seen| seen.last.compare(v).is_le()),
            strict: self.strict & self.seen.is_none_or(|seen| seen.last.compare(v).is_lt()),
            nulls: self.nulls,
            sum: self.sum.and_then(|sum| E::plus(sum, v.single())),
        }
    }

    // The set of the nine claims, for so many rows.
    pub(crate) fn set(self, rows: u64) -> StatsSet<E, E::Sum>
        ensures { entries E.Element.sums.has_sums result ≡ all_put (tally_claim E.Ordered.order E.Element.sums self rows) all_stats }
    {
        let mut set = StatsSet::<E, E::Sum>::new();
        for stat in Stat::all() {
            // of the statistic's kind, so it is not declined
            let _ = set.set(stat, self.claim(stat, rows));
        }
        set
    }

    // What is told at a place, for so many rows: the claims that there are, by rising number. No set is filled for it, which
    // takes many times as long for a few rows. A loop, here and below, since the check does not prove a chain of `filter` and
    // `nth`.
    pub(crate) fn told(self, rows: u64, place: usize) -> Option<Statement<E, E::Sum>>
        ensures { result ≡ slice_get (present (tally_claim E.Ordered.order E.Element.sums self rows) all_stats) place }
    {
        let mut left = place;
        for stat in Stat::all() {
            let claim = self.claim(stat, rows);
            if !claim.is_absent() {
                if left == 0 {
                    return Some(Statement { stat, claim });
                }
                left -= 1;
            }
        }
        None
    }

    // How many claims there are.
    pub(crate) fn told_len(self, rows: u64) -> usize
        ensures { result ≡ length (present (tally_claim E.Ordered.order E.Element.sums self rows) all_stats) }
    {
        let mut len = 0usize;
        for stat in Stat::all() {
            let claim = self.claim(stat, rows);
            if !claim.is_absent() {
                len += 1;
            }
        }
        len
    }

    // The claim of a statistic, for so many rows; absent where there is no element, no sum, or no size below 2^64.
    fn claim(self, stat: Stat, rows: u64) -> Precision<StatValue<E, E::Sum>>
        ensures { result ≡ tally_claim E.Ordered.order E.Element.sums self rows stat }
    {
        match stat {
            Stat::IsConstant => Flags::claim(Precision::Exact(self.constant())),
            Stat::IsSorted => Flags::claim(Precision::Exact(self.sorted)),
            Stat::IsStrictSorted => Flags::claim(Precision::Exact(self.strict)),
            Stat::Max => Elements::claim(exactly(self.seen.map(|seen| seen.most))),
            Stat::Min => Elements::claim(exactly(self.seen.map(|seen| seen.least))),
            Stat::Sum if E::HAS_SUMS => Sums::claim(exactly(self.sum)),
            Stat::Sum => Precision::Absent,
            Stat::NullCount => Counts::claim(Precision::Exact(self.nulls)),
            Stat::UncompressedSizeInBytes => Counts::claim(exactly(rows.checked_mul(E::WIDTH))),
            Stat::NaNCount => Counts::claim(Precision::Exact(0)),
        }
    }

    // Whether no two rows differ: every row is null, or none is and the least element is the greatest.
    fn constant(self) -> bool
        ensures { result ≡ no_two E.Ordered.order self.seen self.nulls }
    {
        self.seen.is_none_or(|seen| self.nulls == 0 && seen.least.compare(seen.most).is_eq())
    }
}

// The exact claim of a value, where there is one.
fn exactly<T: Copy>(value: Option<T>) -> Precision<T>
    ensures { result ≡ exactly value }
{
    value.map_or(Precision::Absent, Precision::Exact)
}
