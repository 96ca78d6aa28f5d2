// Pages with a tag, and a change of the tag.
ghost use Rattle.std.specs.Prelude.{◌≡◌};
ghost use Rattle.ranges_tests.specs.Tags.{tagged_of, tagged_shape, tagged_laws, retagged, retagged_still};

use ranges::{Change, Element};

#[derive(Clone, Copy, Debug, PartialEq, Eq)]
pub struct Tagged {
    pub first: u16,
    pub pages: u16,
    pub tag: u8,
}

impl Tagged {
    pub fn new(first: u16, pages: u16, tag: u8) -> Tagged
        ensures { result ≡ tagged_of first pages tag }
    {
        Tagged { first, pages, tag }
    }
}

impl Element for Tagged {
    ghost shape = { tagged_shape };

    ghost laws = { tagged_laws };

    fn first(&self) -> u16 {
        self.first
    }

    fn pages(&self) -> u16 {
        self.pages
    }

    fn part(&self, first: u16, pages: u16) -> Tagged {
        Tagged {
            first,
            pages,
            ..*self
        }
    }

    fn one(&self, page: u16) -> Tagged {
        self.part(page, 1)
    }
}

// Sets the tag.
pub struct Retag {
    pub tag: u8,
}

impl Change<Tagged> for Retag {
    ghost alters = { retagged };

    ghost still = { retagged_still };

    fn apply(&self, e: Tagged) -> Tagged {
        Tagged { tag: self.tag, ..e }
    }
}
