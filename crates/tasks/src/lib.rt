// Tasks: tables of map entries, and the places where they live.
#![tactic(auto)]

mod task;

pub use task::{Place, Task, idle, names, started};
