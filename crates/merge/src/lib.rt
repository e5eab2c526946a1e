#![tactic(auto)]
// Merging the statistics of two disjoint parts into those of the whole. Clauses take the column by its parts: a set names none.
ghost use Rattle.std.specs.Prelude.{◌≡◌, Bool, true, false};
ghost use Rattle.statement.specs.declared.StatValue.TheVariants.{Flag};
ghost use Rattle.statement.specs.Kinds.{flag_claim, element_claim};
ghost use Rattle.stat.specs.declared.Stat.TheVariants.{Max, Min};
ghost use Rattle.precision.specs.Claims.{mapped};
ghost use Rattle.rules.specs.Column.{column};
ghost use Rattle.rules.specs.Sets.{got};
ghost use Rattle.rules.specs.Merging.{rule, sorted_rule};
ghost use Rattle.set.specs.Viewed.{entries};
ghost use Rattle.leaves.specs.Comparing.{in_step};
ghost use Rattle.merge.specs.Merged.{Merges};

use leaves::Comparison;
use precision::precision::Precision;
use rules::element::Element;
use set::stats_set::StatsSet;
use stat::Stat;
use statement::StatValue;
use statement::kind::{Counts, Elements, Flags, Kind, Sums};

pub trait MergeSets {
    // Holds of whether the order of the parts is kept, of this set before, of the other, and of this set after.
    ghost merges: { Bool → Self → Self → Self → Type 0 };

    // Merges a set of rows that are appended to the rows of this one.
    fn merge_ordered(&mut self, other: &Self)
        ensures { merges true self.old other.now self.new };

    // Merges a set of other rows, in no order: sortedness is dropped.
    fn merge_unordered(&mut self, other: &Self)
        ensures { merges false self.old other.now self.new };
}

impl<E: Element> MergeSets for StatsSet<E, E::Sum> {
    ghost merges = { λ in_order a b c. Merges (column E.Ordered.order E.Sum.Ordered.order E.Element.sums) in_order (entries E.Element.sums.has_sums a) (entries E.Element.sums.has_sums b) (entries E.Element.sums.has_sums c) };

    fn merge_ordered(&mut self, other: &Self) {
        merge(self, other, true);
    }

    fn merge_unordered(&mut self, other: &Self) {
        merge(self, other, false);
    }
}

// Statistic after statistic, by rising number, each on the entries as changed so far.
fn merge<E: Element>(values: &mut StatsSet<E, E::Sum>, other: &StatsSet<E, E::Sum>, in_order: bool)
    ensures { Merges (column E.Ordered.order E.Sum.Ordered.order E.Element.sums) in_order (entries E.Element.sums.has_sums values.old) (entries E.Element.sums.has_sums other.now) (entries E.Element.sums.has_sums values.new) }
{
    for stat in Stat::all() {
        let claim = merged(values, other, in_order, stat);
        // of the statistic's kind, so it is not declined
        let _ = values.set(stat, claim);
    }
}

// What a merge gives for a statistic, from the claims of both sides; an absent claim clears.
fn merged<E: Element>(
    mine: &StatsSet<E, E::Sum>,
    other: &StatsSet<E, E::Sum>,
    in_order: bool,
    stat: Stat,
) -> Precision<StatValue<E, E::Sum>>
    ensures { result ≡ rule (column E.Ordered.order E.Sum.Ordered.order E.Element.sums) in_order (entries E.Element.sums.has_sums mine.now) (entries E.Element.sums.has_sums other.now) stat }
{
    match stat {
        Stat::IsConstant => Flags::claim(leaves::merge_constant(
            mine.get_as::<Flags>(stat),
            other.get_as::<Flags>(stat),
            mine.get_as::<Elements>(Stat::Min),
            other.get_as::<Elements>(Stat::Min),
        )),
        Stat::IsSorted if in_order => sortedness(Comparison::Le, mine, other, stat),
        Stat::IsStrictSorted if in_order => sortedness(Comparison::Lt, mine, other, stat),
        Stat::IsSorted | Stat::IsStrictSorted => Precision::Absent,
        Stat::Max => Elements::claim(leaves::merge_max(
            mine.get_as::<Elements>(stat),
            other.get_as::<Elements>(stat),
        )),
        Stat::Min => Elements::claim(leaves::merge_min(
            mine.get_as::<Elements>(stat),
            other.get_as::<Elements>(stat),
        )),
        Stat::Sum => Sums::claim(leaves::merge_sum::<E>(
            mine.get_as::<Sums>(stat),
            other.get_as::<Sums>(stat),
        )),
        Stat::NullCount | Stat::UncompressedSizeInBytes | Stat::NaNCount => {
            Counts::claim(leaves::merge_count(
                mine.get_as::<Counts>(stat),
                other.get_as::<Counts>(stat),
            ))
        }
    }
}

// One of the two sortedness statistics, by how the greatest of the first part compares with the least of the second.
fn sortedness<E: Element>(
    comparison: Comparison,
    mine: &StatsSet<E, E::Sum>,
    other: &StatsSet<E, E::Sum>,
    stat: Stat,
) -> Precision<StatValue<E, E::Sum>>
    ensures { result ≡ mapped Flag (sorted_rule (in_step comparison E.Ordered.order) (flag_claim (got (entries E.Element.sums.has_sums mine.now) stat)) (flag_claim (got (entries E.Element.sums.has_sums other.now) stat)) (element_claim (got (entries E.Element.sums.has_sums mine.now) Max)) (element_claim (got (entries E.Element.sums.has_sums other.now) Min))) }
{
    Flags::claim(leaves::merge_sortedness(
        comparison,
        mine.get_as::<Flags>(stat),
        other.get_as::<Flags>(stat),
        mine.get_as::<Elements>(Stat::Max),
        other.get_as::<Elements>(Stat::Min),
    ))
}
