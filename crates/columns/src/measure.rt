// A measured value: a whole number of 64 signed bits.
ghost use Rattle.std.specs.Prelude.{◌≡◌, ◌^◌, ◌<◌, Some};
ghost use Rattle.std.specs.Int.Signed.{mag};
ghost use Rattle.std.specs.Fmt.{signed_decimal};
ghost use Rattle.columns.specs.Numbers.{ReadsI64, numbered};

use std::fmt;
use std::num::ParseIntError;
use std::str::FromStr;

mod element;
mod ordered;

#[derive(Clone, Copy, PartialEq, Eq, PartialOrd, Ord, Debug)]
pub struct Measure {
    value: i64,
    // it is from -2 ^ 63 up to and without 2 ^ 63: `mag` is n of both n and -(n + 1)
    ghost held: { mag value < 2 ^ 63 },
}

impl Measure {
    // The measure of a number; no other measure has that number.
    pub fn new(value: i64) -> Self
        ensures { result.value ≡ value }
    {
        Measure { value }
    }

    pub fn value(self) -> i64
        ensures { result ≡ self.value }
    {
        self.value
    }
}

// in decimal, behind a `-` where it is below zero
impl fmt::Display for Measure {
    ghost output = { λ m. Some (signed_decimal m.value) };

    fn fmt<W: fmt::Write>(&self, f: &mut fmt::Formatter<W>) -> fmt::Result {
        write!(f, "{}", self.value)
    }
}

// what `i64` reads
impl FromStr for Measure {
    type Err = ParseIntError;

    ghost from_str_gives = { λ bs r. ReadsI64 bs (numbered (λ m. m.value) r) };

    fn from_str(s: &str) -> Result<Measure, ParseIntError> {
        Ok(Measure::new(i64::from_str(s)?))
    }
}
