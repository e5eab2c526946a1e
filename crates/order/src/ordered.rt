// A type any two values of which compare as below, equal or above. Each impl has the one line of `compare`, which says by what
// order of the rules the type's own comparison goes.
ghost use Rattle.std.specs.Prelude.{◌≡◌};
ghost use Rattle.std.specs.declared.cmp.Ordering.{Ordering as Compared};
ghost use Rattle.order.specs.Order.{OrderLaws, flag_order, count_order, integer_order};
ghost use Rattle.std.proofs.Common.{rules};

use std::cmp::Ordering;

pub trait Ordered: Copy {
    // How two values compare.
    ghost order: { Self → Self → Compared };

    fn compare(self, other: Self) -> Ordering
        ensures { result ≡ order self other };

    // Total and transitive, and equal means the same value.
    ghost ordered: { OrderLaws order };
}

// false is below true
impl Ordered for bool {
    ghost order = { flag_order };

    ghost ordered = { Prim.search rules };

    fn compare(self, other: bool) -> Ordering {
        self.cmp(&other)
    }
}

impl Ordered for u64 {
    ghost order = { count_order };

    ghost ordered = { Prim.search rules };

    fn compare(self, other: u64) -> Ordering {
        self.cmp(&other)
    }
}

impl Ordered for i64 {
    ghost order = { integer_order };

    ghost ordered = { Prim.search rules };

    fn compare(self, other: i64) -> Ordering {
        self.cmp(&other)
    }
}
