#![tactic(auto)]
// Why a call declines. Each case has a number and, some of them, a value.
ghost use Rattle.std.specs.Prelude.{◌≡◌, Some};
ghost use Rattle.refusal.specs.Refusals.{refusal_number, refusal_value, refusal_text};

use stat::Stat;
use std::error::Error;
use std::fmt;

#[derive(Clone, Copy, PartialEq, Eq, Debug)]
pub enum Refusal {
    // 1: the value is not of the statistic's kind, or is a sum where the type has none
    WrongKind,
    // 2, the statistic: two claims of it have no value in common
    Contradiction(Stat),
    // 3, the number: there is no such live zone
    NoZone(u64),
    // 4: a zone is not merged into itself
    SameZone,
    // 5: every usable cell is filled
    CellsFull,
    // 6: every usable record is in use
    RecordsFull,
    // 7: no row is open
    NoOpenRow,
    // 8: the buffer is shorter than the closed rows
    ShortBuffer,
}

impl Refusal {
    // Named, since `u8::from(refusal)` would not say which number it is.
    pub fn number(self) -> u8
        ensures { result ≡ refusal_number self }
    {
        match self {
            Refusal::WrongKind => 1,
            Refusal::Contradiction(_) => 2,
            Refusal::NoZone(_) => 3,
            Refusal::SameZone => 4,
            Refusal::CellsFull => 5,
            Refusal::RecordsFull => 6,
            Refusal::NoOpenRow => 7,
            Refusal::ShortBuffer => 8,
        }
    }

    // The statistic's number, or the zone's.
    pub fn value(self) -> Option<u64>
        ensures { result ≡ refusal_value self }
    {
        match self {
            Refusal::Contradiction(stat) => Some(stat.number() as u64),
            Refusal::NoZone(zone) => Some(zone),
            _ => None,
        }
    }
}

// `refused NUMBER` or `refused NUMBER VALUE`
impl fmt::Display for Refusal {
    ghost output = { λ r. Some (refusal_text (refusal_number r) (refusal_value r)) };

    fn fmt<W: fmt::Write>(&self, f: &mut fmt::Formatter<W>) -> fmt::Result {
        let number = self.number();
        match self.value() {
            Some(value) => write!(f, "refused {number} {value}"),
            None => write!(f, "refused {number}"),
        }
    }
}

impl Error for Refusal {}
