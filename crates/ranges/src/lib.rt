// Page ranges, and tables of elements that lie in page ranges and can be cut in two.
#![tactic(auto)]

mod calls;
mod edit;
mod element;
mod range;
mod row;
mod scan;
mod table;

pub use calls::Refused;
pub use edit::{change, cut, insert, remove};
pub use element::{Change, Element, range_of};
pub use range::{Range, fits};
pub use scan::{covers, find, is_taken};
pub use table::Table;

// How many pages a task has.
pub const PAGES: u16 = 4096;
