// Measures as elements: a measure is its own sum, and two add where the total fits 64 signed bits.
ghost use Rattle.std.specs.Prelude.{true};
ghost use Rattle.columns.specs.Measures.{measure_sums};
ghost use Rattle.columns.specs.MeasuresLemmas.{measures_summed};
ghost use Rattle.std.proofs.Common.{rules};

use crate::measure::Measure;
use rules::element::Element;

impl Element for Measure {
    type Sum = Measure;

    const WIDTH: u64 = 8;

    const HAS_SUMS: bool = true;

    ghost WIDTH = { 8 };

    ghost HAS_SUMS = { true };

    ghost sums = { measure_sums };

    ghost wide = { Prim.search rules };

    ghost adding = { Prim.search rules };

    ghost narrow = { Prim.search rules };

    ghost summed = { λ _. measures_summed };

    fn zero() -> Measure {
        Measure::new(0)
    }

    fn single(self) -> Measure {
        self
    }

    fn plus(a: Measure, b: Measure) -> Option<Measure> {
        Some(Measure::new(a.value.checked_add(b.value)?))
    }
}
