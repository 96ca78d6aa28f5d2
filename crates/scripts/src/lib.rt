// Scripts of commands to the memory engine, and the transcripts that answer them.
#![tactic(auto)]

mod console;
mod lines;
mod reader;

pub use console::{LONGEST, printed, transcript};
pub use lines::{push_bytes, push_counts, push_numbers, push_plain};
pub use reader::{Area, BadRecord, Command, Record, Records, count_records, next_record};
