// A script performed on a new engine, and the text of what it answered.
ghost use Rattle.std.specs.Prelude.{◌≡◌, ◌++◌, IfOk, string_bytes, decimal, OnOk, Err};
ghost use Rattle.engine.specs.Relation.{Represents};
ghost use Rattle.machine.specs.State.{State};
ghost use Rattle.pagers.specs.Meaning.{Meaning};
ghost use Rattle.scripts.specs.Records.{call as called, machine_call, item_of};
ghost use Rattle.scripts.specs.Text.{answer_text, line};
ghost use Rattle.scripts.specs.Transcript.{Answers, answer_of, transcript_of, printed_text};
ghost use Rattle.scripts.specs.declared.console.Trouble.TheVariants.{Refused, BadRecord};

use crate::lines::{push_counts, push_plain};
use crate::reader::{BadRecord, Command, Record, Records};
use engine::{Engine, Refusal, Usage};
use std::alloc::{AllocError, Global};

// What a command that is accepted is answered. It has the shape of an Option today and is an enum, since it names the
// machine's replies, of which a read's bytes are the next.
#[derive(Clone, Copy, Debug, PartialEq, Eq)]
pub enum Reply {
    Done,
    Counts(Usage),
}

// Why a record is answered by a number alone: the engine refuses its command, or it is none.
#[derive(Clone, Copy, Debug, PartialEq, Eq)]
pub enum Trouble {
    Refused(Refusal),
    BadRecord(BadRecord),
}

// A refusal of the engine, handed on.
impl From<Refusal> for Trouble {
    ghost from_gives = { λ r t. t ≡ Refused r };

    fn from(refusal: Refusal) -> Trouble {
        Trouble::Refused(refusal)
    }
}

// A record that is no command, handed on.
impl From<BadRecord> for Trouble {
    ghost from_gives = { λ r t. t ≡ BadRecord r };

    fn from(bad: BadRecord) -> Trouble {
        Trouble::BadRecord(bad)
    }
}

// The number of the answer.
impl From<Trouble> for u8 {
    ghost from_gives = { λ t n. answer_text (answer_of (Err t)) ≡ decimal n };

    fn from(trouble: Trouble) -> u8 {
        match trouble {
            Trouble::Refused(refusal) => refusal.into(),
            Trouble::BadRecord(BadRecord::Malformed) => 13,
            Trouble::BadRecord(BadRecord::CutShort) => 14,
        }
    }
}

// Performs a command. A call that the engine does not have yet is answered like an unknown operation.
#[tactic(auto, unfolding(crate::specs::Transcript::answered, crate::specs::Transcript::moved))]
fn call(engine: &mut Engine, command: Command) -> Result<Reply, Trouble>
    ensures { (M : Meaning) (s : State) → Represents engine.old s → Answers M s (called (machine_call command.entry)) result engine.new }
{
    match command {
        Command::Create { task } => engine.create(task)?,
        Command::Exit { task } => engine.exit(task)?,
        Command::Usage => return Ok(Reply::Counts(engine.usage())),
        _ => return Err(BadRecord::Malformed.into()),
    }
    Ok(Reply::Done)
}

// Performs a record.
#[tactic(auto, unfolding(crate::specs::Transcript::answered, crate::specs::Transcript::moved))]
fn perform(engine: &mut Engine, item: Record) -> Result<Reply, Trouble>
    ensures { (M : Meaning) (s : State) → Represents engine.old s → Answers M s (item_of item.entry) result engine.new }
{
    call(engine, item?)
}

// Appends the line of a record.
fn push_line(
    out: &mut String,
    number: usize,
    answer: Result<Reply, Trouble>,
) -> Result<(), AllocError>
    ensures { OnOk result (string_bytes out.new ≡ string_bytes out.old ++ line number (answer_of answer)) }
{
    match answer {
        Ok(Reply::Done) => push_plain(out, number, 0),
        Ok(Reply::Counts(u)) => push_counts(out, number, u.into()),
        Err(trouble) => push_plain(out, number, trouble.into()),
    }
}

// Performs a script on a new engine of 128 frames: a line for each record.
#[tactic(auto, unfolding(crate::specs::Transcript::transcript_of))]
pub fn transcript(heap: Global, script: &[u8]) -> Result<String, AllocError>
    ensures { IfOk result (λ t. (M : Meaning) → string_bytes t ≡ transcript_of M script.now) }
{
    let mut engine = Engine::new(128);
    let mut out = String::new(heap);
    for (i, record) in Records(script).enumerate() {
        let answer = perform(&mut engine, record);
        push_line(&mut out, i + 1, answer)?;
    }
    Ok(out)
}

// The most bytes that a script may have.
pub const LONGEST: usize = 16384;

// What the program prints for its input: the transcript, or that the script is too long.
pub fn printed(heap: Global, input: &[u8]) -> Result<String, AllocError>
    ensures { IfOk result (λ t. (M : Meaning) → string_bytes t ≡ printed_text M input.now) }
{
    if input.len() > LONGEST {
        return String::from_str(heap, "too long\n");
    }
    transcript(heap, input)
}
