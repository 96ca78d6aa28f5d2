// Where the pages of memory objects come from.
#![tactic(auto)]

mod empty;
mod extent;
mod fault;
mod image;
mod layout;
mod opening;
mod pager;
mod pair;
mod pattern;
mod reading;

pub use empty::Empty;
pub use extent::Extent;
pub use image::Image;
pub use layout::Layout;
pub use opening::BadImage;
pub use pager::Pager;
pub use pair::Pair;
pub use pattern::Pattern;

// Why a page cannot be had. Cause 0: the object has no such page. Any other cause is a damage, and names
// the object and the page as the damaged pager itself numbers them. The cause is a number and no enum, since
// each kind of pager numbers its damages itself, from 2 to 255, and the program prints the number as it is.
#[derive(Clone, Copy, PartialEq, Eq, Debug)]
pub struct PagerFault {
    pub cause: u8,
    pub object: u16,
    pub page: u16,
}
