// The faults that a pager of this library makes itself.
ghost use Rattle.std.specs.Prelude.{◌≡◌};
ghost use Rattle.pagers.specs.Images.{past_data};
ghost use Rattle.pagers.specs.Meaning.{missing};

use crate::PagerFault;

impl PagerFault {
    // The object has no such page.
    pub fn missing(object: u16, page: u16) -> PagerFault
        ensures { result ≡ missing object page }
    {
        PagerFault {
            cause: 0,
            object,
            page,
        }
    }

    // The bytes of a page of object 0 do not all lie in an image's data.
    pub(crate) fn past_data(page: u16) -> PagerFault
        ensures { result ≡ past_data page }
    {
        PagerFault {
            cause: 2,
            object: 0,
            page,
        }
    }
}
