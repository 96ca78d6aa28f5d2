// The words of the subject: protections, inheritances, map entries; and the copying machine, in specs/.
#![tactic(auto)]

mod entry;
mod theorems;
mod words;

pub use theorems::{machine_laws, worked_examples};
pub use words::{Entry, Inheritance, Protection, UnknownNumber};
