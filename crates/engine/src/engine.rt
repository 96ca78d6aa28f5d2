// What an engine holds, and what its calls answer.
ghost use Rattle.std.specs.Prelude.{◌≤◌};

// The engine: its frames, and which tasks live. Task t is at place t - 1.
#[derive(Clone, Copy, Debug, PartialEq, Eq)]
pub struct Engine {
    pub(crate) frames: u8,
    pub(crate) living: [bool; 16],
    ghost few: { frames ≤ 128 },
}

// Why a call was turned away; it then has altered nothing.
#[derive(Clone, Copy, Debug, PartialEq, Eq)]
pub enum Refusal {
    // The task's number is outside 1 to 16, or a task that must live does not.
    NoTask,
    // The task to be made lives.
    Living,
}

// How much is in use: the entries of all tasks, the living records, the different living marks; and the frames.
#[derive(Clone, Copy, Debug, PartialEq, Eq)]
pub struct Usage {
    pub entries: u32,
    pub records: u32,
    pub marks: u32,
    pub frames: u32,
}
