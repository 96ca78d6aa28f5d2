// What a cell holds: the bytes of the frame at which its walk ends, zeros, or a page that is fetched.
#![tactic(auto)]

mod bytes;
mod fault;

pub use bytes::load;
pub use fault::{ObjectFault, Wanted};
