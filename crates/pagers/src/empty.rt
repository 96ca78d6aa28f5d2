// A pager without pages.
ghost use Rattle.pagers.specs.Bounds.{nothing_bounded};
ghost use Rattle.pagers.specs.Meaning.{nothing};

use crate::PagerFault;
use crate::pager::Pager;

// No object has a page.
#[derive(Clone, Copy)]
pub struct Empty;

impl Pager for Empty {
    ghost meaning = { λ _. nothing };

    ghost bounded = { λ _. nothing_bounded };

    fn count(&mut self, _object: u16) -> u16 {
        0
    }

    fn fetch(&mut self, object: u16, page: u16, _into: &mut [u8; 256]) -> Result<(), PagerFault> {
        Err(PagerFault::missing(object, page))
    }
}
