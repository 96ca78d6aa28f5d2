// The calls, each answered as the copying machine answers it: for every state that the engine stands for, of which a model could name only one.
ghost use Rattle.std.specs.Prelude.{◌≡◌, false, if◌then◌else◌, [], ◌∷◌, is_ok};
ghost use Rattle.pagers.specs.Meaning.{Meaning};
ghost use Rattle.machine.specs.Calls.{create, exit, usage, refused};
ghost use Rattle.machine.specs.State.{State, start};
ghost use Rattle.engine.specs.Relation.{Represents, Follows, outcome, counted, place_of, refusal};
ghost use Rattle.engine.specs.Places.{wanted, Within};
ghost use Rattle.engine.specs.declared.engine.Refusal.TheVariants.{NoTask, Living};

use crate::engine::{Engine, Refusal, Usage};

// The place of a task in the engine's rows.
fn place(task: u8) -> Option<usize>
    ensures { result ≡ place_of task }
{
    match task {
        1..=16 => Some(usize::from(task) - 1),
        _ => None,
    }
}

// The refusal's number in the table of answers.
impl From<Refusal> for u8 {
    ghost from_gives = { λ r n. refusal r ≡ refused n };

    fn from(refusal: Refusal) -> u8 {
        match refusal {
            Refusal::NoTask => 2,
            Refusal::Living => 3,
        }
    }
}

// The numbers of a usage, in the order in which the machine tells them.
impl From<Usage> for [u32; 4] {
    ghost from_gives = { λ u numbers. numbers ≡ u.entries ∷ u.records ∷ u.marks ∷ u.frames ∷ [] };

    fn from(u: Usage) -> [u32; 4] {
        [u.entries, u.records, u.marks, u.frames]
    }
}

impl Engine {
    // A new engine has the smaller of n and 128 frames, and no task.
    #[tactic(auto, unfolding(machine::specs::State::start))]
    pub fn new(n: usize) -> Engine
        ensures { Represents result (start n) }
    {
        Engine {
            frames: n.min(128) as u8,
            living: [false; 16],
        }
    }

    // The place of a task that lives or does not, as wanted; otherwise why there is none.
    fn place_if(&self, task: u8, lives: bool) -> Result<usize, Refusal>
        ensures value { result ≡ wanted self.now.living lives (if lives then NoTask else Living) (place_of task) }
        ensures within { Within result }
    {
        let at = place(task).ok_or(Refusal::NoTask)?;
        match (self.living[at], lives) {
            (false, true) => Err(Refusal::NoTask),
            (true, false) => Err(Refusal::Living),
            _ => Ok(at),
        }
    }

    // Makes a task without entries. It differs from `exit` in two constants; the two are calls of their own, each with a
    // contract in the machine's words, and a function of both would have its three lines and be called by each.
    #[tactic(auto, unfolding(machine::specs::Step::step, machine::specs::Step::created, machine::specs::Step::judged, machine::specs::Step::refuse, machine::specs::Step::accepted, machine::specs::Step::misnumbered, machine::specs::State::lives, machine::specs::Step::with_task))]
    pub fn create(&mut self, task: u8) -> Result<(), Refusal>
        ensures refusal { is_ok result ≡ false → self.new ≡ self.old }
        ensures machine { (M : Meaning) (s : State) → Represents self.old s → Follows M s (create task) (outcome result) self.new }
    {
        let at = self.place_if(task, false)?;
        self.living[at] = true;
        Ok(())
    }

    // Ends a task.
    #[tactic(auto, unfolding(machine::specs::Step::step, machine::specs::Step::ended, machine::specs::Step::judged, machine::specs::Step::refuse, machine::specs::Step::accepted, machine::specs::Step::missing, machine::specs::Step::misnumbered, machine::specs::State::lives, machine::specs::Step::with_task))]
    pub fn exit(&mut self, task: u8) -> Result<(), Refusal>
        ensures refusal { is_ok result ≡ false → self.new ≡ self.old }
        ensures machine { (M : Meaning) (s : State) → Represents self.old s → Follows M s (exit task) (outcome result) self.new }
    {
        let at = self.place_if(task, true)?;
        self.living[at] = false;
        Ok(())
    }

    // How much is in use. No task has an entry yet.
    #[tactic(auto, using(crate::proofs::Tasks::no_entries), unfolding(machine::specs::Step::step, machine::specs::Step::counted, machine::specs::State::living_records, machine::specs::State::living_marks, machine::specs::State::living_cells, machine::specs::State::distinct))]
    pub fn usage(&self) -> Usage
        ensures { (M : Meaning) (s : State) → Represents self.now s → Follows M s usage (counted result) self.now }
    {
        Usage {
            entries: 0,
            records: 0,
            marks: 0,
            frames: u32::from(self.frames),
        }
    }
}
