// Pages that know whether they were cut off: a part of one page differs from what is said of that page.
ghost use Rattle.std.specs.Prelude.{◌≡◌, false};
ghost use Rattle.ranges_tests.specs.Cuts.{cuttable, cuttable_shape, cuttable_laws};

use ranges::Element;

#[derive(Clone, Copy, Debug, PartialEq, Eq)]
pub struct Cuttable {
    pub first: u16,
    pub pages: u16,
    pub cut: bool,
}

impl Cuttable {
    pub fn whole(first: u16, pages: u16) -> Cuttable
        ensures { result ≡ cuttable first pages false }
    {
        Cuttable {
            first,
            pages,
            cut: false,
        }
    }
}

impl Element for Cuttable {
    ghost shape = { cuttable_shape };

    ghost laws = { cuttable_laws };

    fn first(&self) -> u16 {
        self.first
    }

    fn pages(&self) -> u16 {
        self.pages
    }

    fn part(&self, first: u16, pages: u16) -> Cuttable {
        Cuttable {
            first,
            pages,
            cut: true,
        }
    }

    fn one(&self, page: u16) -> Cuttable {
        Cuttable::whole(page, 1)
    }
}
