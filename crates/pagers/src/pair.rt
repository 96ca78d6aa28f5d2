// Two pagers as one.
ghost use Rattle.std.specs.Prelude.{◌≡◌};
ghost use Rattle.pagers.specs.Bounds.{paired_bounded};
ghost use Rattle.pagers.specs.Meaning.{paired};

use crate::PagerFault;
use crate::pager::Pager;

// Objects below the split number are the first's, and any other is the second's, from its object 0 on.
#[derive(Drop)]
pub struct Pair<A, B> {
    first: A,
    second: B,
    split: u16,
}

impl<A: Pager, B: Pager> Pair<A, B> {
    // The two as one pager.
    pub fn new(first: A, second: B, split: u16) -> Pair<A, B>
        ensures { paired result.split (A.Pager.meaning result.first) (B.Pager.meaning result.second) ≡ paired split (A.Pager.meaning first) (B.Pager.meaning second) }
    {
        Pair {
            first,
            second,
            split,
        }
    }
}

impl<A: Pager, B: Pager> Pager for Pair<A, B> {
    ghost meaning = { λ p. paired p.split (A.Pager.meaning p.first) (B.Pager.meaning p.second) };

    ghost bounded = { λ p. paired_bounded p.split (A.Pager.meaning p.first) (B.Pager.meaning p.second) (A.Pager.bounded p.first) (B.Pager.bounded p.second) };

    fn count(&mut self, object: u16) -> u16 {
        match object.checked_sub(self.split) {
            Some(own) => self.second.count(own),
            None => self.first.count(object),
        }
    }

    fn fetch(&mut self, object: u16, page: u16, into: &mut [u8; 256]) -> Result<(), PagerFault> {
        let Some(own) = object.checked_sub(self.split) else {
            return self.first.fetch(object, page, into);
        };
        if page >= self.second.count(own) {
            return Err(PagerFault::missing(object, page));
        }
        self.second.fetch(own, page, into)
    }
}
