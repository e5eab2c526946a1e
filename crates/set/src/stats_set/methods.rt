// What can be done with a set. Its meaning is the list of its entries, in the order of first setting. Clauses take the column by
// its parts: a set names none.
ghost use Rattle.std.specs.Prelude.{◌≡◌, true, false, not, List, [], ◌∷◌, ◌++◌, length, IfOk, if◌then◌else◌, None as Nothing, filter, ◌==◌, nat_lt};
ghost use Rattle.std.specs.List.{slice_get};
ghost use Rattle.stat.specs.declared.Stat.{Stat as Statistic};
ghost use Rattle.stat.specs.Stats.{same_stat};
ghost use Rattle.listing.specs.Listed.{listed};
ghost use Rattle.listing.specs.Marks.{marked};
ghost use Rattle.precision.specs.Claims.{is_absent};
ghost use Rattle.refusal.specs.Refusals.{refused, declined};
ghost use Rattle.claims.specs.Entries.{claim_in, has_stat, counts};
ghost use Rattle.rules.specs.Column.{column};
ghost use Rattle.rules.specs.Rows.{Row};
ghost use Rattle.rules.specs.Truth.{AllHold};
ghost use Rattle.rules.specs.Claims.{takes, may_set};
ghost use Rattle.rules.specs.Sets.{got, put, without, retained};
ghost use Rattle.statement.specs.Kinds.{parted};
ghost use Rattle.set.specs.Viewed.{entries};
ghost use Rattle.claims.proofs.Views.{shown_proper};

use super::StatsSet;
use claims::Claims;
use listing::Listing;
use precision::precision::Precision;
use refusal::Refusal;
use rules::element::Element;
use rules::provider::StatsProvider;
use stat::Stat;
use statement::kind::Kind;
use statement::{StatValue, Statement};

impl<E: Element> StatsSet<E, E::Sum> {
    // A set with no entry.
    pub fn new() -> Self
        ensures { entries E.Element.sums.has_sums result ≡ [] }
    {
        StatsSet {
            claims: Claims::none(),
            order: Listing::empty(Stat::IsConstant),
        }
    }

    // A set with one statement, or none where the claim is absent. Declines a value of another kind.
    pub fn of(stat: Stat, claim: Precision<StatValue<E, E::Sum>>) -> Result<Self, Refusal>
        ensures answer { refused result ≡ (if may_set E.Element.sums.has_sums stat claim then Nothing else declined 1 Nothing) }
        ensures made { IfOk result (λ s. entries E.Element.sums.has_sums s ≡ put [] stat claim) }
    {
        let mut values = StatsSet::new();
        values.set(stat, claim)?;
        Ok(values)
    }

    // How many entries there are.
    pub fn len(&self) -> usize
        ensures { result ≡ length (entries E.Element.sums.has_sums self.now) }
    {
        self.shown().len()
    }

    pub fn is_empty(&self) -> bool
        ensures { result ≡ (length (entries E.Element.sums.has_sums self.now) == 0) }
    {
        self.len() == 0
    }

    // Replaces the claim in place, or adds it last; an absent one clears. Declines a value of another kind.
    pub fn set(&mut self, stat: Stat, claim: Precision<StatValue<E, E::Sum>>) -> Result<(), Refusal>
        ensures answer { refused result ≡ (if may_set E.Element.sums.has_sums stat claim then Nothing else declined 1 Nothing) }
        ensures after { entries E.Element.sums.has_sums self.new ≡ (if may_set E.Element.sums.has_sums stat claim then put (entries E.Element.sums.has_sums self.old) stat claim else entries E.Element.sums.has_sums self.old) }
    {
        if !may_set::<E>(stat, claim) {
            return Err(Refusal::WrongKind);
        }
        if claim.is_absent() {
            self.clear(stat);
        } else {
            self.put(stat, claim);
        }
        Ok(())
    }

    // Writes a claim with a value of the statistic's kind.
    fn put(&mut self, stat: Stat, claim: Precision<StatValue<E, E::Sum>>)
        requires may { may_set E.Element.sums.has_sums stat claim ≡ true }
        requires there { is_absent claim ≡ false }
        ensures { entries E.Element.sums.has_sums self.new ≡ put (entries E.Element.sums.has_sums self.old) stat claim }
    {
        let order = self.order_with(stat);
        let mut claims = self.claims;
        claims.put(stat, claim);
        *self = StatsSet { claims, order };
    }

    // The order with a statistic, last if there is no claim of it.
    fn order_with(&self, stat: Stat) -> Listing<Stat>
        ensures { listed result ≡ (if is_absent (claim_in self.now.claims stat) then (if nat_lt (length (listed self.now.order)) 9 then listed self.now.order ++ (stat ∷ []) else listed self.now.order) else listed self.now.order) }
    {
        let mut order = self.order;
        if self.claims.claim(stat).is_absent() {
            order.push(stat);
        }
        order
    }

    // Removes the entry of a statistic; the others keep their order, and what was true stays true.
    pub fn clear(&mut self, stat: Stat)
        ensures after { entries E.Element.sums.has_sums self.new ≡ without (entries E.Element.sums.has_sums self.old) stat }
        ensures truth { (rows : List (Row E)) → AllHold (column E.Ordered.order E.Sum.Ordered.order E.Element.sums) rows (entries E.Element.sums.has_sums self.old) → AllHold (column E.Ordered.order E.Sum.Ordered.order E.Element.sums) rows (entries E.Element.sums.has_sums self.new) }
    {
        self.keep(&all_but(stat));
    }

    // Removes the entries that are not named; the others keep their order, and what was true stays true.
    pub fn retain_only(&mut self, stats: &[Stat])
        ensures after { entries E.Element.sums.has_sums self.new ≡ retained (has_stat stats.now) (entries E.Element.sums.has_sums self.old) }
        ensures truth { (rows : List (Row E)) → AllHold (column E.Ordered.order E.Sum.Ordered.order E.Element.sums) rows (entries E.Element.sums.has_sums self.old) → AllHold (column E.Ordered.order E.Sum.Ordered.order E.Element.sums) rows (entries E.Element.sums.has_sums self.new) }
    {
        self.keep(&only(stats));
    }

    // Keeps the entries that are marked, by number. Marks, which it hands to both parts.
    fn keep(&mut self, keep: &[bool; 9])
        ensures { entries E.Element.sums.has_sums self.new ≡ retained (marked keep.now) (entries E.Element.sums.has_sums self.old) }
    {
        let mut claims = self.claims;
        let mut order = self.order;
        claims.keep(keep);
        order.retain(keep);
        *self = StatsSet { claims, order };
    }

    // The claim of a statistic, absent where there is none.
    pub fn get(&self, stat: Stat) -> Precision<StatValue<E, E::Sum>>
        ensures { result ≡ got (entries E.Element.sums.has_sums self.now) stat }
    {
        if counted::<E>(stat) {
            self.claims.claim(stat)
        } else {
            Precision::Absent
        }
    }

    // The statistics of the entries, in order.
    pub(crate) fn shown(&self) -> Listing<Stat>
        ensures { listed result ≡ filter (counts E.Element.sums.has_sums) (listed self.now.order) }
    {
        let mut order = self.order;
        if !E::HAS_SUMS && !self.claims.sum.is_absent() {
            order.retain(&all_but(Stat::Sum));
        }
        order
    }

    // The claim of a statistic as one of a kind, absent where there is none of that kind.
    pub fn get_as<K: Kind<E, E::Sum>>(&self, stat: Stat) -> Precision<K::Value>
        ensures { result ≡ parted K.part (got (entries E.Element.sums.has_sums self.now) stat) }
    {
        K::claim_in(self.get(stat))
    }
}

// A set tells its entries in order.
impl<E: Element> StatsProvider<E> for StatsSet<E, E::Sum> {
    ghost told = { λ s. entries E.Element.sums.has_sums s };

    ghost proper = { λ s. shown_proper E.Element.sums.has_sums s.claims (listed s.order) (s.once, s.present) };

    fn len(&mut self) -> usize {
        StatsSet::len(self)
    }

    fn tell(&mut self, place: usize) -> Option<Statement<E, E::Sum>> {
        let stat = self.shown().get(place)?;
        Some(self.statement(stat))
    }
}

// Whether a set takes the claim.
fn may_set<E: Element>(stat: Stat, claim: Precision<StatValue<E, E::Sum>>) -> bool
    ensures { result ≡ may_set E.Element.sums.has_sums stat claim }
{
    match claim {
        Precision::Exact(value) | Precision::Inexact(value) => is_kind::<E>(stat, value),
        Precision::Absent => true,
    }
}

// Whether the value is of the statistic's kind, and no sum where the type has none.
fn is_kind<E: Element>(stat: Stat, value: StatValue<E, E::Sum>) -> bool
    ensures { result ≡ takes E.Element.sums.has_sums stat value }
{
    match stat {
        Stat::IsConstant | Stat::IsSorted | Stat::IsStrictSorted => matches!(
            value,
            StatValue::Flag(_)
        ),
        Stat::Max | Stat::Min => matches!(value, StatValue::Element(_)),
        Stat::Sum => E::HAS_SUMS && matches!(value, StatValue::Sum(_)),
        Stat::NullCount | Stat::UncompressedSizeInBytes | Stat::NaNCount => matches!(
            value,
            StatValue::Count(_)
        ),
    }
}

// Whether the statistic counts: a sum only where there are sums.
fn counted<E: Element>(stat: Stat) -> bool
    ensures { result ≡ counts E.Element.sums.has_sums stat }
{
    E::HAS_SUMS || !stat.same(Stat::Sum)
}

// Every statistic is marked but one.
fn all_but(stat: Stat) -> [bool; 9]
    ensures { (t : Statistic) → marked result t ≡ not (same_stat stat t) }
{
    let mut marks = [true; 9];
    marks[stat.number() as usize] = false;
    marks
}

// Those are marked that are named.
fn only(stats: &[Stat]) -> [bool; 9]
    ensures { (t : Statistic) → marked result t ≡ has_stat stats.now t }
{
    let mut marks = [false; 9];
    for stat in stats {
        marks[stat.number() as usize] = true;
    }
    marks
}
