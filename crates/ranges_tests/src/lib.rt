// Tests of the range tables on elements that carry one number, and on such that know whether they were cut off.
#![tactic(auto)]

mod cuttable;
mod tagged;

pub use cuttable::Cuttable;
pub use tagged::{Retag, Tagged};

#[cfg(test)]
mod tests;
