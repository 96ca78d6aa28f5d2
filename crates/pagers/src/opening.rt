// Opens an image file: reads its table.
ghost use Rattle.std.specs.Prelude.{◌≡◌, ◌^◌, ◌<◌, not, ◌&&◌, length, is_ok, IfOk, OnOk};
ghost use Rattle.ranges.specs.Tables.{inserted};
ghost use Rattle.ranges.specs.Says.{Inserts};
ghost use Rattle.ranges.specs.Held.{held, Becomes};
ghost use Rattle.pagers.specs.Extents.{extent_shape};
ghost use Rattle.pagers.specs.Images.{within, crosses, image_good, image_meaning, body_from};
ghost use Rattle.pagers.specs.Layouts.{over};

use crate::extent::Extent;
use crate::layout::Layout;
use crate::reading;
use ranges::{Refused, Table, fits};

// The file is no image.
#[derive(Clone, Copy, PartialEq, Eq, Debug)]
pub struct BadImage;

// An extent that its table refuses, handed on.
impl From<Refused> for BadImage {
    ghost from_gives = { λ _ b. b ≡ record {} };

    fn from(_refused: Refused) -> BadImage {
        BadImage
    }
}

// Whether the extent has a page and does not pass the page count.
fn is_within(e: &Extent, pages: u16) -> bool
    ensures { result ≡ within pages e.now }
{
    fits(e.first, e.pages, pages)
}

impl Layout {
    // Puts an extent into the table: refused, and the table is as it was, if it is empty, passes the page
    // count or has a page in common with another.
    #[tactic(auto, using(crate::proofs::Openings::may_enter))]
    fn enter(&mut self, e: Extent) -> Result<(), BadImage>
        requires room { length (held self.old.extents) < 32 }
        requires small { e.position < 2 ^ 32 }
        ensures becomes { Becomes self.old.extents self.new.extents (inserted extent_shape e (held self.old.extents)) (within self.old.pages e && not (crosses e (held self.old.extents))) result }
        ensures says { OnOk result (Inserts extent_shape e (held self.old.extents) (held self.new.extents)) }
        ensures pages { self.new.pages ≡ self.old.pages }
    {
        if !is_within(&e, self.pages) {
            return Err(BadImage);
        }
        self.extents.insert(e)?;
        Ok(())
    }

    // Reads the table of an image file.
    pub fn open(file: &[u8]) -> Result<Layout, BadImage>
        ensures exactly { is_ok result ≡ image_good file.now }
        ensures meaning { IfOk result (λ l. over l (body_from (length (held l.extents)) file.now) ≡ image_meaning file.now) }
    {
        let (pages, table) = reading::head(file)?;
        let mut layout = Layout {
            pages,
            extents: Table::new(Extent::default()),
        };
        for row in table {
            layout.enter(reading::extent(row))?;
        }
        Ok(layout)
    }
}
