// Values and statements as text.
ghost use Rattle.std.specs.Prelude.{◌≡◌, Some};
ghost use Rattle.statement.specs.declared.text.ParseStatementError.TheVariants.{NoStat};
ghost use Rattle.statement.specs.Writing.{value_text, statement_text, unread_text};
ghost use Rattle.statement.specs.Reading.{ReadsKind, ReadsOf, ReadsStatement};

use crate::kind::{Counts, Elements, Flags, Kind, Sums};
use crate::{StatValue, Statement};
use precision::precision::Precision;
use stat::{ParseStatError, Stat};
use std::error::Error;
use std::fmt;
use std::str::FromStr;

// A flag as `true` or `false`, a count in decimal, elements and sums as they are written by themselves.
impl<E: fmt::Display, S: fmt::Display> fmt::Display for StatValue<E, S> {
    ghost output = { λ v. value_text E.Display.output S.Display.output v };

    fn fmt<W: fmt::Write>(&self, f: &mut fmt::Formatter<W>) -> fmt::Result {
        match self {
            StatValue::Flag(flag) => write!(f, "{flag}"),
            StatValue::Element(element) => write!(f, "{element}"),
            StatValue::Sum(sum) => write!(f, "{sum}"),
            StatValue::Count(count) => write!(f, "{count}"),
        }
    }
}

// `NAME=CLAIM`
impl<E: fmt::Display, S: fmt::Display> fmt::Display for Statement<E, S> {
    ghost output = { λ s. statement_text E.Display.output S.Display.output s };

    fn fmt<W: fmt::Write>(&self, f: &mut fmt::Formatter<W>) -> fmt::Result {
        write!(f, "{}={}", self.stat, self.claim)
    }
}

// Why a text is no statement.
#[derive(Clone, Copy, PartialEq, Eq, Debug)]
pub enum ParseStatementError {
    // there is no `=`
    NoSign,
    // what stands before the first `=` names no statistic
    NoStat,
    // what stands behind it is no claim of the statistic's kind
    NoClaim,
}

impl fmt::Display for ParseStatementError {
    ghost output = { λ e. Some (unread_text e) };

    fn fmt<W: fmt::Write>(&self, f: &mut fmt::Formatter<W>) -> fmt::Result {
        f.write_str(match self {
            ParseStatementError::NoSign => "a statement is NAME=CLAIM",
            ParseStatementError::NoStat => "there is no statistic of that name",
            ParseStatementError::NoClaim => "the claim has no value of the statistic's kind",
        })
    }
}

impl Error for ParseStatementError {}

impl From<ParseStatError> for ParseStatementError {
    ghost from_gives = { λ _ e. e ≡ NoStat };

    fn from(_e: ParseStatError) -> Self {
        Self::NoStat
    }
}

// A claim of a kind, as the kind's values are read.
fn read_kind<E: Copy, S: Copy, K: Kind<E, S>>(text: &str) -> Option<Precision<StatValue<E, S>>>
where
    K::Value: FromStr,
    <K::Value as FromStr>::Err: Drop,
    ensures { ReadsKind K.wrapped K.Value.FromStr.from_str_gives text.now result }
{
    let claim = Precision::<K::Value>::from_str(text).ok()?;
    Some(K::claim(claim))
}

// A claim of a statistic, by its kind: a flag `true` or `false`, an element, a sum, or a count in decimal.
pub fn read_claim<E: FromStr + Copy, S: FromStr + Copy>(
    stat: Stat,
    text: &str,
) -> Option<Precision<StatValue<E, S>>>
where
    E::Err: Drop,
    S::Err: Drop,
    ensures { ReadsOf E.FromStr.from_str_gives S.FromStr.from_str_gives stat text.now result }
{
    match stat {
        Stat::IsConstant | Stat::IsSorted | Stat::IsStrictSorted => read_kind::<E, S, Flags>(text),
        Stat::Max | Stat::Min => read_kind::<E, S, Elements>(text),
        Stat::Sum => read_kind::<E, S, Sums>(text),
        Stat::NullCount | Stat::UncompressedSizeInBytes | Stat::NaNCount => {
            read_kind::<E, S, Counts>(text)
        }
    }
}

// `NAME=CLAIM`, parted at the first `=`.
impl<E: FromStr + Copy, S: FromStr + Copy> FromStr for Statement<E, S>
where
    E::Err: Drop,
    S::Err: Drop,
{
    type Err = ParseStatementError;

    ghost from_str_gives = { λ bs r. ReadsStatement E.FromStr.from_str_gives S.FromStr.from_str_gives bs r };

    fn from_str(word: &str) -> Result<Statement<E, S>, ParseStatementError> {
        let Some((name, text)) = word.split_once('=') else {
            return Err(ParseStatementError::NoSign);
        };
        let stat = Stat::from_str(name)?;
        let claim = read_claim::<E, S>(stat, text).ok_or(ParseStatementError::NoClaim)?;
        Ok(Statement { stat, claim })
    }
}
