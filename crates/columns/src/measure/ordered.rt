// The order of measures.
ghost use Rattle.order.specs.Order.{integer_order};
ghost use Rattle.columns.specs.MeasuresLemmas.{measures_ordered};

use crate::measure::Measure;
use order::ordered::Ordered;
use std::cmp::Ordering;

// by number
impl Ordered for Measure {
    ghost order = { λ x y. integer_order x.value y.value };

    ghost ordered = { measures_ordered };

    fn compare(self, other: Measure) -> Ordering {
        self.cmp(&other)
    }
}
