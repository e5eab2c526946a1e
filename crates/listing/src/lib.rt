#![tactic(auto)]
// A list of at most nine: a table of nine entries, of which the first `len` are in use.
ghost use Rattle.std.specs.Prelude.{◌≡◌, ◌≤◌, ◌<◌, ℕ, length, slice_index_or};
ghost use Rattle.listing.specs.Tables.{AtEach};

use std::alloc::AllocError;

mod methods;

// In the order in which they came. Entries past `len` are not in use. A table of its own, since a set is fixed memory that can
// be copied, and `ArrayVec` cannot.
#[derive(Copy)]
pub struct Listing<T> {
    items: [T; 9],
    len: usize,
    // no more are in use than there are
    ghost fits: { len ≤ 9 },
}

// By hand, since it is not derived for a type with both a parameter and a ghost field; and entry by entry, since the clone of a
// table is known not to fail only where an iterator over it fits in memory.
impl<T: Clone> Clone for Listing<T> {
    ghost is_clone = { λ x y. AtEach T.is_clone x.items y.items × (length y.items ≡ length x.items) × (y.len ≡ x.len) × (((a b : T) → T.is_clone a b → b ≡ a) → y ≡ x) };

    ghost is_infallible = { λ x. (i : ℕ) (d : T) → i < 9 → T.is_infallible (slice_index_or x.items i d) };

    fn clone(&self) -> Result<Self, AllocError> {
        let [a, b, c, d, e, f, g, h, i] = &self.items;
        Ok(Listing {
            items: [
                a.clone()?,
                b.clone()?,
                c.clone()?,
                d.clone()?,
                e.clone()?,
                f.clone()?,
                g.clone()?,
                h.clone()?,
                i.clone()?,
            ],
            len: self.len,
        })
    }
}
