// Where the pages of an image lie in its file.
ghost use Rattle.std.specs.Prelude.{◌≡◌, ◌≤◌};
ghost use Rattle.pagers.specs.Images.{place};
ghost use Rattle.ranges.specs.Held.{held};

use crate::extent::Extent;
use ranges::Table;

// The page count, and the extents.
#[derive(Drop)]
pub struct Layout {
    pub(crate) pages: u16,
    pub(crate) extents: Table<Extent, 32>,
    ghost most: { pages ≤ 4096 },
}

impl Layout {
    // Where the page begins in the data: None if it is in no extent.
    #[tactic(auto, using(crate::proofs::Places::place_said))]
    pub(crate) fn place(&self, page: u16) -> Option<u64>
        ensures { result ≡ place page (held self.now.extents) }
    {
        self.extents.find(page).map(|extent| extent.position)
    }
}
