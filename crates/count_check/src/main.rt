#![tactic(auto)]
// Counts every slice of at most four rows over null, -1, 0 and 1, and compares each claim with a second, plain computation.
use columns::measure::Measure;
use counting::{LiveCount, count};
use precision::precision::Precision;
use rules::provider::StatsProvider;
use stat::Stat;
use statement::{StatValue, Statement};
use std::io;

type Claim = Precision<StatValue<Measure, Measure>>;

// What the statistics of some rows are, by looking at every pair of rows.
#[derive(Clone, Copy)]
struct Plain {
    constant: bool,
    sorted: bool,
    strict: bool,
    max: Option<i64>,
    min: Option<i64>,
    sum: i64,
    nulls: u64,
    rows: u64,
}

impl Plain {
    fn of(rows: &[Option<i64>]) -> Plain {
        let mut plain = Plain {
            constant: true,
            sorted: true,
            strict: true,
            max: None,
            min: None,
            sum: 0,
            nulls: 0,
            rows: rows.len() as u64,
        };
        let mut rest = rows;
        while let Some((earlier, later)) = rest.split_first() {
            plain = plain.with_row(*earlier);
            plain = later
                .iter()
                .fold(plain, |plain, row| plain.with_pair(*earlier, *row));
            rest = later;
        }
        plain
    }

    // How two rows, the first before the second, bear on the flags.
    fn with_pair(self, earlier: Option<i64>, later: Option<i64>) -> Plain {
        let (falls, stays) = match (earlier, later) {
            (Some(a), Some(b)) => (a > b, a == b),
            _ => (false, false),
        };
        Plain {
            constant: self.constant && earlier == later,
            sorted: self.sorted && !falls,
            strict: self.strict && !falls && !stays,
            ..self
        }
    }

    fn with_row(self, row: Option<i64>) -> Plain {
        match row {
            None => Plain {
                nulls: self.nulls.wrapping_add(1),
                ..self
            },
            Some(v) => Plain {
                sum: self.sum.wrapping_add(v),
                max: Some(self.max.map_or(v, |max| max.max(v))),
                min: Some(self.min.map_or(v, |min| min.min(v))),
                ..self
            },
        }
    }

    // The claim that counting should give.
    fn claim(&self, stat: Stat) -> Claim {
        match stat {
            Stat::IsConstant => Precision::Exact(StatValue::Flag(self.constant)),
            Stat::IsSorted => Precision::Exact(StatValue::Flag(self.sorted)),
            Stat::IsStrictSorted => Precision::Exact(StatValue::Flag(self.strict)),
            Stat::Max => element(self.max),
            Stat::Min => element(self.min),
            Stat::Sum => Precision::Exact(StatValue::Sum(Measure::new(self.sum))),
            Stat::NullCount => Precision::Exact(StatValue::Count(self.nulls)),
            Stat::UncompressedSizeInBytes => Precision::Exact(StatValue::Count(
                self.rows.wrapping_mul(8),
            )),
            Stat::NaNCount => Precision::Exact(StatValue::Count(0)),
        }
    }
}

fn element(value: Option<i64>) -> Claim {
    value.map_or(
        Precision::Absent,
        |v| Precision::Exact(StatValue::Element(Measure::new(v))),
    )
}

// Whether a provider tells the claims that are there, by rising number, and no more.
fn tells<P: StatsProvider<Measure>>(provider: &mut P, plain: &Plain) -> bool {
    let expected = Stat::all()
        .into_iter()
        .map(|stat| Statement {
            stat,
            claim: plain.claim(stat),
        })
        .filter(|statement| !statement.claim.is_absent());
    let len = provider.len();
    let told = (0..len).map(|place| provider.tell(place));
    told.eq(expected.map(Some))
}

// The row that a digit stands for.
fn row(digit: u32) -> Option<i64> {
    match digit {
        0 => None,
        1 => Some(-1),
        2 => Some(0),
        _ => Some(1),
    }
}

// Whether counting the first `len` rows of a code agrees with the plain computation.
fn code_agrees(code: u32, len: usize) -> bool {
    let digits = [code % 4, code / 4 % 4, code / 16 % 4, code / 64 % 4];
    let values = digits.map(row);
    let rows = values.map(|value| value.map(Measure::new));
    let len = len.min(4);
    let plain = Plain::of(&values[0..len]);
    let mut set = count(&rows[0..len]);
    let mut live = LiveCount::new(&rows[0..len]);
    let all = Stat::all();
    all.iter().all(|stat| set.get(*stat) == plain.claim(*stat))
        && tells(&mut set, &plain)
        && tells(&mut live, &plain)
}

fn main(rt: HostRuntime) -> io::Result<()> {
    let (slices, differ) = [1u32, 4, 16, 64, 256]
        .into_iter()
        .enumerate()
        .fold((0u32, 0usize), |(slices, differ), (len, codes)| {
            let wrong = (0..codes).filter(|code| !code_agrees(*code, len)).count();
            (slices.wrapping_add(codes), differ.wrapping_add(wrong))
        });
    println!(rt; "{slices} slices counted, {differ} differ")
}
