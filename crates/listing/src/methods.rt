// What can be done with a listing. Its meaning is the list of the entries in use.
ghost use Rattle.std.specs.Prelude.{◌≡◌, [], ◌∷◌, ◌++◌, length, if◌then◌else◌, filter, nat_lt};
ghost use Rattle.std.specs.List.{slice_get};
ghost use Rattle.listing.specs.Listed.{listed};
ghost use Rattle.listing.specs.Marks.{marked};

use crate::Listing;
use stat::Stat;

impl<T: Copy> Listing<T> {
    // None yet; the entries of the table hold a filler.
    pub fn empty(filler: T) -> Self
        ensures { listed result ≡ [] }
    {
        Listing {
            items: [filler; 9],
            len: 0,
        }
    }

    // How many there are.
    pub fn len(&self) -> usize
        ensures { result ≡ length (listed self.now) }
    {
        self.as_slice().len()
    }

    // Those in use, lent.
    pub fn as_slice(&self) -> &[T]
        ensures { result.now ≡ listed self.now }
    {
        &self.items[..self.len]
    }

    // The one at a place.
    pub fn get(&self, place: usize) -> Option<T>
        ensures { result ≡ slice_get (listed self.now) place }
    {
        self.as_slice().get(place).copied()
    }

    // One more, last; nothing where nine are listed.
    pub fn push(&mut self, entry: T)
        ensures { listed self.new ≡ (if nat_lt (length (listed self.old)) 9 then listed self.old ++ (entry ∷ []) else listed self.old) }
    {
        let at = self.len;
        if at < 9 {
            let slot = &mut self.items[at];
            *slot = entry;
            self.len = at + 1;
        }
    }
}

impl Listing<Stat> {
    // Only those that are marked, by number; they keep their order. Marks, and no closure, which would have to be required to be
    // callable.
    pub fn retain(&mut self, keep: &[bool; 9])
        ensures { listed self.new ≡ filter (marked keep.now) (listed self.old) }
    {
        let mut chosen = Listing::empty(Stat::IsConstant);
        for stat in self.as_slice() {
            if keep[stat.number() as usize] {
                chosen.push(*stat);
            }
        }
        *self = chosen;
    }
}
