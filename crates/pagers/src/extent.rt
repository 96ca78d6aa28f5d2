// Pages that lie one after another in a file.
ghost use Rattle.pagers.specs.Extents.{extent_shape, extent_laws};

use ranges::Element;

// Pages in a row whose bytes lie in a file from a position on, 256 a page.
#[derive(Clone, Copy, PartialEq, Eq, Default, Debug)]
pub struct Extent {
    pub first: u16,
    pub pages: u16,
    pub position: u64,
}

impl Element for Extent {
    ghost shape = { extent_shape };

    ghost laws = { extent_laws };

    fn first(&self) -> u16 {
        self.first
    }

    fn pages(&self) -> u16 {
        self.pages
    }

    fn part(&self, first: u16, pages: u16) -> Extent {
        Extent {
            first,
            pages,
            position: self.position + 256 * u64::from(first - self.first),
        }
    }

    fn one(&self, page: u16) -> Extent {
        self.part(page, 1)
    }
}
