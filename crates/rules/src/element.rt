// An ordered type with a width and, where it has them, sums.
ghost use Rattle.std.specs.Prelude.{◌≡◌, ◌≤◌, ℕ, Bool, true};
ghost use Rattle.rules.specs.Column.{Sums as Adding, SumLaws};

use order::ordered::Ordered;

pub trait Element: Ordered {
    type Sum: Ordered;

    // How many bytes an element takes.
    const WIDTH: u64;

    // Whether elements have sums.
    const HAS_SUMS: bool;

    // What contracts call the two constants.
    ghost WIDTH: { ℕ };

    ghost HAS_SUMS: { Bool };

    // What elements and sums stand for, and how they add.
    ghost sums: { Adding Self Self.Sum };

    // The sum of nothing.
    fn zero() -> Self::Sum
        ensures { result ≡ sums.zero };

    // The sum of one element.
    fn single(self) -> Self::Sum
        ensures { result ≡ sums.single self };

    // The sum of two, where there is one.
    fn plus(a: Self::Sum, b: Self::Sum) -> Option<Self::Sum>
        ensures { result ≡ sums.plus a b };

    ghost wide: { WIDTH ≡ sums.width };

    ghost adding: { HAS_SUMS ≡ sums.has_sums };

    ghost narrow: { (1 ≤ sums.width) × (sums.width ≤ 16) };

    ghost summed: { sums.has_sums ≡ true → SumLaws sums };
}
