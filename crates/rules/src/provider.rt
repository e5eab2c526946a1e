// Whoever tells statements about rows: how many, and one at each place.
ghost use Rattle.std.specs.Prelude.{◌≡◌, List, length};
ghost use Rattle.std.specs.List.{slice_get};
ghost use Rattle.statement.specs.declared.Statement.{Statement as Said};
ghost use Rattle.rules.specs.Sets.{Proper};

use crate::element::Element;
use statement::Statement;

pub trait StatsProvider<E: Element> {
    // The statements, by places from 0: its meaning.
    ghost told: { Self → List (Said E E.Sum) };

    // How many there are.
    fn len(&mut self) -> usize
        ensures answer { result ≡ length (told self.old) }
        ensures steady { told self.new ≡ told self.old };

    // The statement at a place; nothing past the last.
    fn tell(&mut self, place: usize) -> Option<Statement<E, E::Sum>>
        ensures answer { result ≡ slice_get (told self.old) place }
        ensures steady { told self.new ≡ told self.old };

    // A statistic occurs at most once, and each claim is one that a set takes, never an absent one.
    ghost proper: { (p : Self) → Proper E.Element.sums.has_sums (told p) };
}
