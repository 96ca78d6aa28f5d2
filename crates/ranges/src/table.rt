// A table: elements in rising order, no two with a page in common.
ghost use Rattle.std.specs.Prelude.{◌≡◌, ◌≤◌, true, take};
ghost use Rattle.ranges.specs.Tables.{rising};

use crate::element::Element;
use std::alloc::AllocError;

// At most N elements: the first `len` rows hold them, and the rows behind say nothing. An array with a length beside: the
// engine's tables are of fixed size and on no heap, and are copied, which neither a `Vec` nor an `ArrayVec` is.
pub struct Table<E: Element, const N: usize> {
    pub(crate) rows: [E; N],
    pub(crate) len: usize,
    ghost fit: { len ≤ N },
    ghost ordered: { rising E.Element.shape 0 (take len rows) ≡ true },
}

// Copied as it is. The two are written out, since a derive is refused over a type parameter and a ghost field.
impl<E: Element, const N: usize> Copy for Table<E, N> {}

impl<E: Element, const N: usize> Clone for Table<E, N> {
    ghost is_clone = { λ x y. y ≡ x };

    ghost is_infallible = { λ _. Unit {0} };

    fn clone(&self) -> Result<Table<E, N>, AllocError> {
        Ok(*self)
    }
}
