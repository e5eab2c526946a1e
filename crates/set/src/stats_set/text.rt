// A set as text.
ghost use Rattle.set.specs.Viewed.{entries};
ghost use Rattle.set.specs.Written.{entries_text};

use super::StatsSet;
use rules::element::Element;
use std::fmt;

// The entries in order, parted by a blank; `-` where there are none.
impl<E: Element + fmt::Display> fmt::Display for StatsSet<E, E::Sum>
where
    E::Sum: fmt::Display,
{
    ghost output = { λ s. entries_text E.Display.output E.Sum.Display.output (entries E.Element.sums.has_sums s) };

    fn fmt<W: fmt::Write>(&self, f: &mut fmt::Formatter<W>) -> fmt::Result {
        let shown = self.shown();
        let Some((first, others)) = shown.as_slice().split_first() else {
            return f.write_str("-");
        };
        write!(f, "{}", self.statement(*first))?;
        for stat in others {
            write!(f, " {}", self.statement(*stat))?;
        }
        Ok(())
    }
}
