#![tactic(auto)]
// The nine statistics, by number and name.
ghost use Rattle.std.specs.Prelude.{◌≡◌, Some, codes};
ghost use Rattle.stat.specs.Stats.{stat_number, same_stat, commutes, stat_name, all_stats, ReadsStat};

use std::error::Error;
use std::fmt;
use std::str::FromStr;

#[derive(Clone, Copy, PartialEq, Eq, Debug)]
pub enum Stat {
    // whether no two rows differ; null differs from every element
    IsConstant = 0,
    // whether the elements, nulls left out, never fall
    IsSorted = 1,
    // whether they always rise
    IsStrictSorted = 2,
    // the greatest element
    Max = 3,
    // the least element
    Min = 4,
    // the total of the elements
    Sum = 5,
    // how many rows are null
    NullCount = 6,
    // how many bytes the rows take
    UncompressedSizeInBytes = 7,
    // how many rows are not a number
    NaNCount = 8,
}

impl Stat {
    // Named, since `u8::from(stat)` would not say which number it is.
    pub fn number(self) -> u8
        ensures { result ≡ stat_number self }
    {
        self as u8
    }

    // Whether the two are the same statistic: `==`, by the numbers that the rules compare.
    pub fn same(self, other: Stat) -> bool
        ensures { result ≡ same_stat self other }
    {
        self == other
    }

    // Whether a merge of it needs no order of the parts.
    pub fn is_commutative(&self) -> bool
        ensures { result ≡ commutes self.now }
    {
        match *self {
            Stat::IsSorted | Stat::IsStrictSorted => false,
            _ => true,
        }
    }

    pub fn name(&self) -> &'static str
        ensures { result.now ≡ stat_name self.now }
    {
        match *self {
            Stat::IsConstant => "is_constant",
            Stat::IsSorted => "is_sorted",
            Stat::IsStrictSorted => "is_strict_sorted",
            Stat::Max => "max",
            Stat::Min => "min",
            Stat::Sum => "sum",
            Stat::NullCount => "null_count",
            Stat::UncompressedSizeInBytes => "uncompressed_size_in_bytes",
            Stat::NaNCount => "nan_count",
        }
    }

    // The nine, by rising number.
    pub fn all() -> [Stat; 9]
        ensures { result ≡ all_stats }
    {
        [
            Stat::IsConstant,
            Stat::IsSorted,
            Stat::IsStrictSorted,
            Stat::Max,
            Stat::Min,
            Stat::Sum,
            Stat::NullCount,
            Stat::UncompressedSizeInBytes,
            Stat::NaNCount,
        ]
    }
}

impl fmt::Display for Stat {
    ghost output = { λ s. Some (stat_name s) };

    fn fmt<W: fmt::Write>(&self, f: &mut fmt::Formatter<W>) -> fmt::Result {
        f.write_str(self.name())
    }
}

// A text that names no statistic.
#[derive(Clone, Copy, PartialEq, Eq, Debug)]
pub struct ParseStatError;

impl fmt::Display for ParseStatError {
    ghost output = { λ _. Some (codes "there is no statistic of that name") };

    fn fmt<W: fmt::Write>(&self, f: &mut fmt::Formatter<W>) -> fmt::Result {
        f.write_str("there is no statistic of that name")
    }
}

impl Error for ParseStatError {}

// The statistic of a name.
impl FromStr for Stat {
    type Err = ParseStatError;

    ghost from_str_gives = { ReadsStat };

    fn from_str(name: &str) -> Result<Stat, ParseStatError> {
        match name {
            "is_constant" => Ok(Stat::IsConstant),
            "is_sorted" => Ok(Stat::IsSorted),
            "is_strict_sorted" => Ok(Stat::IsStrictSorted),
            "max" => Ok(Stat::Max),
            "min" => Ok(Stat::Min),
            "sum" => Ok(Stat::Sum),
            "null_count" => Ok(Stat::NullCount),
            "uncompressed_size_in_bytes" => Ok(Stat::UncompressedSizeInBytes),
            "nan_count" => Ok(Stat::NaNCount),
            _ => Err(ParseStatError),
        }
    }
}
