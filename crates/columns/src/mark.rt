// A mark: a lot by its number, and a piece of the lot by its number.
ghost use Rattle.std.specs.Prelude.{◌≡◌, Some, false};
ghost use Rattle.columns.specs.Marks.{mark, mark_order, mark_sums, mark_bytes, SortsBytes};
ghost use Rattle.columns.specs.Texts.{mark_text, mark_of, ReadsMark};
ghost use Rattle.std.proofs.Common.{rules};

use crate::measure::Measure;
use order::ordered::Ordered;
use rules::element::Element;
use std::cmp::Ordering;
use std::fmt;
use std::num::ParseIntError;
use std::str::FromStr;

// By lot, and of one lot by piece.
#[derive(Clone, Copy, PartialEq, Eq, PartialOrd, Ord, Debug)]
pub struct Mark {
    lot: u32,
    piece: u32,
}

impl Mark {
    pub fn new(lot: u32, piece: u32) -> Self
        ensures { result ≡ mark lot piece }
    {
        Mark { lot, piece }
    }

    pub fn lot(self) -> u32
        ensures { result ≡ self.lot }
    {
        self.lot
    }

    pub fn piece(self) -> u32
        ensures { result ≡ self.piece }
    {
        self.piece
    }

    // The lot's four bytes and then the piece's, each with the most significant first, so that bytes compare as marks do.
    pub fn to_be_bytes(self) -> [u8; 8]
        ensures value { result ≡ mark_bytes self }
        ensures sorts { SortsBytes self result }
    {
        let [a, b, c, d] = self.lot.to_be_bytes();
        let [e, f, g, h] = self.piece.to_be_bytes();
        [a, b, c, d, e, f, g, h]
    }
}

impl Ordered for Mark {
    ghost order = { mark_order };

    ghost ordered = { Prim.search rules };

    fn compare(self, other: Mark) -> Ordering {
        self.cmp(&other)
    }
}

// Marks have no sums: `zero` and `single` give the measure 0, and `plus` gives nothing.
impl Element for Mark {
    type Sum = Measure;

    const WIDTH: u64 = 8;

    const HAS_SUMS: bool = false;

    ghost WIDTH = { 8 };

    ghost HAS_SUMS = { false };

    ghost sums = { mark_sums };

    ghost wide = { Prim.search rules };

    ghost adding = { Prim.search rules };

    ghost narrow = { Prim.search rules };

    ghost summed = { Prim.search rules };

    fn zero() -> Measure {
        Measure::zero()
    }

    fn single(self) -> Measure {
        Self::zero()
    }

    fn plus(_a: Measure, _b: Measure) -> Option<Measure> {
        None
    }
}

// `LOT:PIECE`, both in decimal
impl fmt::Display for Mark {
    ghost output = { λ m. Some (mark_text m) };

    fn fmt<W: fmt::Write>(&self, f: &mut fmt::Formatter<W>) -> fmt::Result {
        write!(f, "{}:{}", self.lot, self.piece)
    }
}

// Why a text is no mark.
#[derive(Clone, PartialEq, Eq, Debug, Drop)]
pub enum ParseMarkError {
    // there is no `:`
    NoColon,
    // what stands before the first `:` is no number of 32 bits
    Lot(ParseIntError),
    // what stands behind it is none
    Piece(ParseIntError),
}

// `LOT:PIECE`, parted at the first `:`
impl FromStr for Mark {
    type Err = ParseMarkError;

    ghost from_str_gives = { λ bs r. ReadsMark bs r };

    fn from_str(s: &str) -> Result<Mark, ParseMarkError> {
        let Some((before, behind)) = s.split_once(':') else {
            return Err(ParseMarkError::NoColon);
        };
        let lot = u32::from_str(before);
        let piece = u32::from_str(behind);
        Ok(Mark::new(
            lot.map_err(ParseMarkError::Lot)?,
            piece.map_err(ParseMarkError::Piece)?,
        ))
    }
}
