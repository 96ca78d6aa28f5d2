// Tasks and the calls on them.
#![tactic(auto)]

mod calls;
mod engine;

pub use engine::{Engine, Refusal, Usage};
