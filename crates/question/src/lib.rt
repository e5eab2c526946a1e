#![tactic(auto)]
// Questions about rows: which match, and whether a zone can be passed over by what is claimed of it. Clauses take the column by
// its parts: a set names none.
ghost use Rattle.std.specs.Prelude.{◌≡◌, Bool, List, Option as Maybe};
ghost use Rattle.statement.specs.declared.Statement.{Statement as Said};
ghost use Rattle.rules.specs.Column.{column};
ghost use Rattle.set.specs.Viewed.{entries};
ghost use Rattle.book.specs.Law.{Honest};
ghost use Rattle.question.specs.Asked.{in_range, out_of_range, is_null, no_nulls};
ghost use Rattle.question.specs.Asking.{range_honest, null_honest};

use order::ordered::Ordered;
use rules::element::Element;
use set::stats_set::StatsSet;
use stat::Stat;
use statement::kind::{Counts, Elements, Kind};

pub trait Question<E: Element> {
    // Which rows match, and of which claims it says skip: its meaning.
    ghost hits: { Self → Maybe E → Bool };

    ghost skips: { Self → List (Said E E.Sum) → Bool };

    // Whether a row matches.
    fn matches(&mut self, row: Option<E>) -> bool
        ensures answer { result ≡ hits self.old row }
        ensures steady { (hits self.new ≡ hits self.old) × (skips self.new ≡ skips self.old) };

    // Whether a zone with these claims can be passed over.
    fn skip(&mut self, claims: &StatsSet<E, E::Sum>) -> bool
        ensures answer { result ≡ skips self.old (entries E.Element.sums.has_sums claims.now) }
        ensures steady { (hits self.new ≡ hits self.old) × (skips self.new ≡ skips self.old) };

    // Of any rows of which a set's claims are true, none matches where it says skip.
    ghost honest: { (q : Self) → Honest (column E.Ordered.order E.Sum.Ordered.order E.Element.sums) (hits q) (skips q) };
}

// Elements from `lo` to `hi`.
#[derive(Clone, Copy)]
pub struct Range<E> {
    pub lo: E,
    pub hi: E,
}

impl<E: Element> Question<E> for Range<E> {
    ghost hits = { λ q. in_range E.Ordered.order q.lo q.hi };

    ghost skips = { λ q. out_of_range E.Ordered.order q.lo q.hi };

    ghost honest = { λ q. range_honest (column E.Ordered.order E.Sum.Ordered.order E.Element.sums) E.Ordered.ordered q.lo q.hi };

    fn matches(&mut self, row: Option<E>) -> bool
        ensures answer { result ≡ in_range E.Ordered.order self.old.lo self.old.hi row }
        ensures steady { self.new ≡ self.old }
    {
        row.is_some_and(|v| v.compare(self.lo).is_ge() & v.compare(self.hi).is_le())
    }

    fn skip(&mut self, claims: &StatsSet<E, E::Sum>) -> bool {
        let greatest = claims.get_as::<Elements>(Stat::Max).into_inner();
        let least = claims.get_as::<Elements>(Stat::Min).into_inner();
        let below = greatest.is_some_and(|v| v.compare(self.lo).is_lt());
        let above = least.is_some_and(|v| v.compare(self.hi).is_gt());
        self.lo.compare(self.hi).is_gt() | (below | above)
    }
}

// Null rows.
#[derive(Clone, Copy)]
pub struct Null;

impl<E: Element> Question<E> for Null {
    ghost hits = { λ _. is_null };

    ghost skips = { λ _. no_nulls };

    ghost honest = { λ q. null_honest (column E.Ordered.order E.Sum.Ordered.order E.Element.sums) };

    fn matches(&mut self, row: Option<E>) -> bool
        ensures answer { result ≡ is_null row }
        ensures steady { self.new ≡ self.old }
    {
        row.is_none()
    }

    fn skip(&mut self, claims: &StatsSet<E, E::Sum>) -> bool {
        let nulls = claims.get_as::<Counts>(Stat::NullCount).into_inner();
        nulls.is_some_and(|n| n == 0)
    }
}
