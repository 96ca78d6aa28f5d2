// Where the pages of memory objects come from.
ghost use Rattle.std.specs.Prelude.{◌≡◌};
ghost use Rattle.pagers.specs.Meaning.{Meaning, Bounded, fetched, Fetches};

use crate::PagerFault;

// A source of pages, which asking does not change. Object and page are two numbers, since a count takes the object
// alone, and a pair of pagers renumbers it alone; a caller that keeps both beside a fault has `contents::Wanted`.
pub trait Pager {
    // How many pages each object has, and what each holds.
    ghost meaning: { Self → Meaning };

    ghost bounded: { (p : Self) → Bounded (meaning p) };

    // How many pages the object has.
    fn count(&mut self, object: u16) -> u16
        ensures count { result ≡ (meaning self.old).count object }
        ensures same { meaning self.new ≡ meaning self.old };

    // Fills the buffer with the page, or says why it cannot be had and leaves the buffer as it was.
    fn fetch(&mut self, object: u16, page: u16, into: &mut [u8; 256]) -> Result<(), PagerFault>
        ensures fetched { Fetches (fetched (meaning self.old) object page) into.old into.new result }
        ensures same { meaning self.new ≡ meaning self.old };
}
