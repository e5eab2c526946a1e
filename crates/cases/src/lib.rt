#![tactic(auto)]
// Worked cases of the rules: one list, computed by the library, with one proof of what each comes to.
ghost use Rattle.std.specs.Prelude.{◌≡◌, true};
ghost use Rattle.columns.specs.Measures.{measured};
ghost use Rattle.rules.specs.Counting.{counted as counts};
ghost use Rattle.rules.specs.Merging.{merged as united};
ghost use Rattle.set.specs.Viewed.{entries};
ghost use Rattle.cases.specs.Listed.{measure_column, CasesHold};

use columns::measure::Measure;
use counting::count;
use lower_bound::LowerBound;
use merge::MergeSets;
use precision::precision::Precision;
use precision::precision::Precision::{Exact, Inexact};
use set::stats_set::StatsSet;
use stat::Stat;
use stat_bound::{IntersectionResult, StatBound};
use statement::StatValue;
use upper_bound::UpperBound;

// What each case comes to.
#[derive(Drop)]
pub struct Cases {
    // a lower bound ~4 united with 4, and with 5
    pub lower_equal: Option<LowerBound<i64>>,
    pub lower_above: Option<LowerBound<i64>>,
    // an upper bound ~9 united with 5
    pub upper_below: Option<UpperBound<i64>>,
    // a lower bound ~4 met with 3, and with 4
    pub lower_apart: Option<IntersectionResult<LowerBound<i64>>>,
    pub lower_meets: Option<IntersectionResult<LowerBound<i64>>>,
    // a claim 5 met with ~9, and 9 with ~5
    pub exact_below: Option<IntersectionResult<Precision<i64>>>,
    pub exact_above: Option<IntersectionResult<Precision<i64>>>,
    // rows 2, 2 and then 1, 1: counted, and merged in order
    pub falling_constant: Claim,
    pub falling_sorted: Claim,
    pub falling_min: Claim,
    pub falling_sum: Claim,
    // rows 1, 2 and then 2, 3
    pub level_sorted: Claim,
    pub level_strict: Claim,
    // sums 9,223,372,036,854,775,807 and 1
    pub full_sum: Claim,
    // rows null, 7
    pub null_constant: Claim,
    pub null_count: Claim,
    pub null_size: Claim,
}

type Claim = Precision<StatValue<Measure, Measure>>;

fn row(value: i64) -> Option<Measure>
    ensures { result ≡ measured value }
{
    Some(Measure::new(value))
}

// Both counted, and the second merged into the first.
fn merged(first: &[Option<Measure>], second: &[Option<Measure>]) -> StatsSet<Measure, Measure>
    ensures { entries true result ≡ united measure_column true (counts measure_column first.now) (counts measure_column second.now) }
{
    let mut zone = count(first);
    zone.merge_ordered(&count(second));
    zone
}

pub fn worked_cases() -> Cases
    ensures { CasesHold result }
{
    let falling = merged(&[row(2), row(2)], &[row(1), row(1)]);
    let level = merged(&[row(1), row(2)], &[row(2), row(3)]);
    let full = merged(&[row(9_223_372_036_854_775_807)], &[row(1)]);
    let holed = count(&[None, row(7)]);
    Cases {
        lower_equal: LowerBound(Inexact(4i64)).union(&LowerBound(Exact(4))),
        lower_above: LowerBound(Inexact(4i64)).union(&LowerBound(Exact(5))),
        upper_below: UpperBound(Inexact(9i64)).union(&UpperBound(Exact(5))),
        lower_apart: LowerBound(Inexact(4i64)).intersection(&LowerBound(Exact(3))),
        lower_meets: LowerBound(Inexact(4i64)).intersection(&LowerBound(Exact(4))),
        exact_below: Exact(5i64).intersection(&Inexact(9)),
        exact_above: Exact(9i64).intersection(&Inexact(5)),
        falling_constant: falling.get(Stat::IsConstant),
        falling_sorted: falling.get(Stat::IsSorted),
        falling_min: falling.get(Stat::Min),
        falling_sum: falling.get(Stat::Sum),
        level_sorted: level.get(Stat::IsSorted),
        level_strict: level.get(Stat::IsStrictSorted),
        full_sum: full.get(Stat::Sum),
        null_constant: holed.get(Stat::IsConstant),
        null_count: holed.get(Stat::NullCount),
        null_size: holed.get(Stat::UncompressedSizeInBytes),
    }
}
