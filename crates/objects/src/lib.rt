// Sharing records, memory objects and frames: walks, shadows, collapse.
#![tactic(auto)]

mod calls;
mod frames;
mod scan;
mod settle;
pub mod store;
pub mod tables;
mod walk;

pub use store::Store;
