#![tactic(auto)]
// Combining statements about the same rows into a set. Clauses take the column by its parts: a set names none.
ghost use Rattle.std.specs.Prelude.{◌≡◌, true, List, if◌then◌else◌, Some as Just, Option as Maybe};
ghost use Rattle.precision.specs.Claims.{is_absent};
ghost use Rattle.statement.specs.declared.Statement.{Statement as Said};
ghost use Rattle.refusal.specs.Refusals.{refused, Declined};
ghost use Rattle.rules.specs.Column.{column};
ghost use Rattle.rules.specs.Claims.{settable, may_set};
ghost use Rattle.rules.specs.Combining.{intersected};
ghost use Rattle.set.specs.Viewed.{entries};
ghost use Rattle.combine.specs.Combined.{Combines, mapped_in};
ghost use Rattle.stat_type.specs.Bounded.{narrowed};
ghost use Rattle.statement.specs.Kinds.{parted};

use order::ordered::Ordered;
use precision::precision::Precision;
use refusal::Refusal;
use rules::element::Element;
use rules::provider::StatsProvider;
use set::stats_set::StatsSet;
use stat::Stat;
use stat_type::{
    IsConstant, IsSorted, IsStrictSorted, Max, Min, NaNCount, NullCount, StatType, Sum,
    UncompressedSizeInBytes, combine_bound,
};
use statement::kind::{Counts, Elements, Flags, Kind, Sums};
use statement::{StatValue, Statement};

pub trait CombineSets<E: Element> {
    // Holds of the statements told, of this set before and after, and of what is declined.
    ghost combines: { List (Said E E.Sum) → Self → Self → Maybe Declined → Type 0 };

    // Combines statements about the rows of this set: a missing statistic takes the claim, a present one the
    // intersection. Where two claims contradict each other it declines; what was told earlier stays combined.
    fn combine_sets<P: StatsProvider<E>>(&mut self, other: &mut P) -> Result<(), Refusal>
        ensures combined { combines (P.StatsProvider.told other.old) self.old self.new (refused result) }
        ensures steady { P.StatsProvider.told other.new ≡ P.StatsProvider.told other.old };
}

impl<E: Element> CombineSets<E> for StatsSet<E, E::Sum> {
    ghost combines = { λ told x z r. Combines (column E.Ordered.order E.Sum.Ordered.order E.Element.sums) told (entries E.Element.sums.has_sums x) (entries E.Element.sums.has_sums z) r };

    fn combine_sets<P: StatsProvider<E>>(&mut self, other: &mut P) -> Result<(), Refusal> {
        // a provider tells by place
        let len = other.len();
        for place in 0..len {
            let Some(told) = other.tell(place) else {
                return Ok(());
            };
            let Some(claim) = joined::<E>(self.get(told.stat), told) else {
                return Err(Refusal::Contradiction(told.stat));
            };
            // of the statistic's kind, so it is not declined
            let _ = self.set(told.stat, claim);
        }
        Ok(())
    }
}

// The claim that a set has of a statistic after one more statement of it; none where the two contradict each other.
fn joined<E: Element>(
    mine: Precision<StatValue<E, E::Sum>>,
    told: Statement<E, E::Sum>,
) -> Option<Precision<StatValue<E, E::Sum>>>
    requires mine { may_set E.Element.sums.has_sums told.stat mine ≡ true }
    requires told { settable E.Element.sums.has_sums told.stat told.claim ≡ true }
    ensures { result ≡ (if is_absent mine then Just told.claim else intersected (column E.Ordered.order E.Sum.Ordered.order E.Element.sums) told.stat mine told.claim) }
{
    if mine.is_absent() {
        return Some(told.claim);
    }
    match told.stat {
        Stat::IsConstant => both::<E, Flags, IsConstant>(mine, told.claim),
        Stat::IsSorted => both::<E, Flags, IsSorted>(mine, told.claim),
        Stat::IsStrictSorted => both::<E, Flags, IsStrictSorted>(mine, told.claim),
        Stat::Max => both::<E, Elements, Max>(mine, told.claim),
        Stat::Min => both::<E, Elements, Min>(mine, told.claim),
        Stat::Sum => both::<E, Sums, Sum>(mine, told.claim),
        Stat::NullCount => both::<E, Counts, NullCount>(mine, told.claim),
        Stat::UncompressedSizeInBytes => {
            both::<E, Counts, UncompressedSizeInBytes>(mine, told.claim)
        }
        Stat::NaNCount => both::<E, Counts, NaNCount>(mine, told.claim),
    }
}

// Two claims of a statistic S in one, by the kind K of its values; none where they contradict each other.
fn both<E: Element, K: Kind<E, E::Sum>, S: StatType<K::Value>>(
    mine: Precision<StatValue<E, E::Sum>>,
    told: Precision<StatValue<E, E::Sum>>,
) -> Option<Precision<StatValue<E, E::Sum>>>
where
    K::Value: Ordered,
    ensures { result ≡ mapped_in K.wrapped (narrowed S.Bound.StatBound.met (parted K.part mine) (parted K.part told)) }
{
    let claim = combine_bound::<K::Value, S>(K::claim_in(mine), K::claim_in(told))?;
    Some(K::claim(claim))
}
