// Reads a claim as it is displayed: `v`, `~v` or `{empty}`.
ghost use Rattle.precision.specs.Texts.{ReadsClaim};

use crate::precision::Precision;
use std::str::FromStr;

impl<T: FromStr> FromStr for Precision<T> {
    type Err = T::Err;

    ghost from_str_gives = { λ bs r. ReadsClaim T.FromStr.from_str_gives bs r };

    fn from_str(s: &str) -> Result<Precision<T>, T::Err> {
        if s == "{empty}" {
            return Ok(Precision::Absent);
        }
        match s.strip_prefix('~') {
            Some(value) => Precision::Inexact(T::from_str(value)).transpose(),
            None => Precision::Exact(T::from_str(s)).transpose(),
        }
    }
}
