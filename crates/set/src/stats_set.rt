// The set itself. What ties its two parts together holds of every set there is.
ghost use Rattle.std.specs.Prelude.{◌≡◌, true, not};
ghost use Rattle.precision.specs.Claims.{is_absent};
ghost use Rattle.stat.specs.declared.Stat.{Stat as Statistic};
ghost use Rattle.listing.specs.Listed.{listed};
ghost use Rattle.statement.specs.Kinds.{stated};
ghost use Rattle.claims.specs.Entries.{claim_in, has_stat, distinct};

use claims::Claims;
use listing::Listing;
use rules::element::Element;
use stat::Stat;
use statement::Statement;
use std::alloc::AllocError;

pub mod methods;
pub mod text;

// Whether there are sums is no part of it, so that whoever names a set needs no element type.
#[derive(Copy)]
pub struct StatsSet<E, S> {
    claims: Claims<E, S>,
    order: Listing<Stat>,
    // no statistic is listed twice
    ghost once: { distinct (listed order) ≡ true },
    // those are listed of which there is a claim
    ghost present: { (s : Statistic) → has_stat (listed order) s ≡ not (is_absent (claim_in claims s)) },
}

// By hand, since it is not derived for a type with both a parameter and a ghost field.
impl<E: Copy, S: Copy> Clone for StatsSet<E, S> {
    ghost is_clone = { λ x y. y ≡ x };

    ghost is_infallible = { λ _. Unit {0} };

    fn clone(&self) -> Result<Self, AllocError> {
        Ok(*self)
    }
}

impl<E: Element> StatsSet<E, E::Sum> {
    // What the set says of a statistic.
    fn statement(&self, stat: Stat) -> Statement<E, E::Sum>
        ensures { result ≡ stated stat (claim_in self.now.claims stat) }
    {
        Statement {
            stat,
            claim: self.claims.claim(stat),
        }
    }
}
