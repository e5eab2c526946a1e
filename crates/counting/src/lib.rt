#![tactic(auto)]
// Counting rows: the true claim of each statistic, in one pass. Clauses take the column by its parts: a set names none.
ghost use Rattle.std.specs.Prelude.{◌≡◌, fold};
ghost use Rattle.rules.specs.Column.{column};
ghost use Rattle.rules.specs.Counting.{counted};
ghost use Rattle.rules.proofs.Counted.{counted_proper};
ghost use Rattle.set.specs.Viewed.{entries};
ghost use Rattle.counting.specs.Counted.{Counts};
ghost use Rattle.counting.specs.Tallied.{fresh, with_row};

use rules::element::Element;
use rules::provider::StatsProvider;
use set::stats_set::StatsSet;
use statement::Statement;
use tally::Tally;

mod tally;

// The statistics of the rows by rising number, each with its exact claim. Without an element there is no greatest and no
// least, where a running total does not fit no sum, and at 2^64 or more no size.
pub fn count<E: Element>(rows: &[Option<E>]) -> StatsSet<E, E::Sum>
    ensures { Counts (column E.Ordered.order E.Sum.Ordered.order E.Element.sums) rows.now (entries E.Element.sums.has_sums result) }
{
    tallied(rows).set(rows.len() as u64)
}

// What counting keeps after the last row. A `for` over the rows, as the rules have it.
fn tallied<E: Element>(rows: &[Option<E>]) -> Tally<E, E::Sum>
    ensures { result ≡ fold (with_row E.Ordered.order E.Element.sums) (fresh E.Element.sums) rows.now }
{
    let mut tally = Tally::<E, E::Sum>::start();
    for row in rows {
        tally = tally.fed(*row);
    }
    tally
}

// Tells what counting the rows gives.
#[derive(Drop)]
pub struct LiveCount<'a, E> {
    rows: &'a [Option<E>],
}

impl<'a, E: Element> LiveCount<'a, E> {
    pub fn new(rows: &'a [Option<E>]) -> Self
        ensures { result.rows.now ≡ rows.now }
    {
        LiveCount { rows }
    }
}

impl<'a, E: Element> StatsProvider<E> for LiveCount<'a, E> {
    ghost told = { λ p. counted (column E.Ordered.order E.Sum.Ordered.order E.Element.sums) p.rows.now };

    ghost proper = { λ p. counted_proper (column E.Ordered.order E.Sum.Ordered.order E.Element.sums) p.rows.now };

    fn len(&mut self) -> usize {
        tallied(self.rows).told_len(self.rows.len() as u64)
    }

    fn tell(&mut self, place: usize) -> Option<Statement<E, E::Sum>> {
        tallied(self.rows).told(self.rows.len() as u64, place)
    }
}
