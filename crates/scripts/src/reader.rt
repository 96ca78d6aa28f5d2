// The script reader: a script is a row of records, each a length of two bytes, an operation and its fields.
ghost use Rattle.std.specs.Prelude.{◌≡◌, length, MatchOption};
ghost use Rattle.std.specs.Option.{ok_or};
ghost use Rattle.std.specs.Iterator.{YieldsFirstBy, at_most};
ghost use Rattle.scripts.specs.Records.{Ends, Reads, items, meant, item_of, on_tasks, on_ranges, on_bytes};

// Pages of a task, as a record names them: they need not be a range that exists.
#[derive(Clone, Copy, Debug, PartialEq, Eq)]
pub struct Area {
    pub task: u8,
    pub start: u16,
    pub pages: u16,
}

// What a well-formed record asks for. A protection or an inheritance is a number, since the call refuses one above 2 in its turn.
#[derive(Clone, Copy, Debug, PartialEq, Eq)]
pub enum Command<'a> {
    Create {
        task: u8,
    },
    MapZero {
        area: Area,
    },
    MapObject {
        area: Area,
        object: u16,
        first: u16,
    },
    Unmap {
        area: Area,
    },
    Protect {
        area: Area,
        value: u8,
    },
    Inherit {
        area: Area,
        value: u8,
    },
    Fork {
        parent: u8,
        child: u8,
    },
    Write {
        task: u8,
        address: u32,
        bytes: &'a [u8],
    },
    Read {
        task: u8,
        address: u32,
        count: u16,
    },
    Exit {
        task: u8,
    },
    Usage,
}

// Why a record is no command.
#[derive(Clone, Copy, Debug, PartialEq, Eq)]
pub enum BadRecord {
    // Its operation is unknown, or its length is wrong.
    Malformed,
    // The script ends before the record does.
    CutShort,
}

// A record of a script: what it asks for, or why that is nothing.
pub type Record<'a> = Result<Command<'a>, BadRecord>;

// The command of an operation on tasks alone, or of usage; none if the bytes are not one.
fn task_command(body: &[u8]) -> Option<Command<'_>>
    ensures { item_of (ok_or result BadRecord.Malformed) ≡ on_tasks body.now }
{
    match *body {
        [1, task] => Some(Command::Create { task }),
        [7, parent, child] => Some(Command::Fork { parent, child }),
        [10, task] => Some(Command::Exit { task }),
        [11] => Some(Command::Usage),
        _ => None,
    }
}

// The command of an operation on a range of pages; none if the bytes are not one.
fn range_command(body: &[u8]) -> Option<Command<'_>>
    ensures { item_of (ok_or result BadRecord.Malformed) ≡ on_ranges body.now }
{
    let &[op, task, s1, s0, n1, n0, ref more @ ..] = body else {
        return None;
    };
    let area = Area {
        task,
        start: u16::from_be_bytes([s1, s0]),
        pages: u16::from_be_bytes([n1, n0]),
    };
    match (op, more) {
        (2, []) => Some(Command::MapZero { area }),
        (3, &[m1, m0, q1, q0]) => Some(Command::MapObject {
            area,
            object: u16::from_be_bytes([m1, m0]),
            first: u16::from_be_bytes([q1, q0]),
        }),
        (4, []) => Some(Command::Unmap { area }),
        (5, &[value]) => Some(Command::Protect { area, value }),
        (6, &[value]) => Some(Command::Inherit { area, value }),
        _ => None,
    }
}

// The command of a write or a read; none if the bytes are not one.
fn byte_command(body: &[u8]) -> Option<Command<'_>>
    ensures { item_of (ok_or result BadRecord.Malformed) ≡ on_bytes body.now }
{
    let &[op, task, a3, a2, a1, a0, ref more @ ..] = body else {
        return None;
    };
    let address = u32::from_be_bytes([a3, a2, a1, a0]);
    match (op, more) {
        (8, bytes) if (1..=256).contains(&bytes.len()) => Some(Command::Write {
            task,
            address,
            bytes,
        }),
        (9, &[n1, n0]) => Some(Command::Read {
            task,
            address,
            count: u16::from_be_bytes([n1, n0]),
        }),
        _ => None,
    }
}

// The command of a record, from its bytes after the length; none if they are not one.
#[tactic(auto, using(std::proofs::lemmas::Bool::Decides::nat_tests))]
fn parsed(body: &[u8]) -> Option<Command<'_>>
    ensures { item_of (ok_or result BadRecord.Malformed) ≡ meant body.now }
{
    match body {
        [2..=6, ..] => range_command(body),
        [8..=9, ..] => byte_command(body),
        _ => task_command(body),
    }
}

// The first record of a script, and the script after it; none where the script is at its end.
#[tactic(auto, using(crate::proofs::Reading::items_none, crate::proofs::Reading::items_lone, crate::proofs::Reading::items_short, std::proofs::lemmas::List::take_rest))]
pub fn next_record(script: &[u8]) -> Option<(Record<'_>, &[u8])>
    ensures { MatchOption result (Ends script.now) (λ p. Reads script.now p.0 p.1.now) }
{
    match *script {
        [] => None,
        [hi, lo, ref rest @ ..] => {
            let size = usize::from(u16::from_be_bytes([hi, lo]));
            match rest.split_at_checked(size) {
                Some((body, after)) => Some((parsed(body).ok_or(BadRecord::Malformed), after)),
                None => Some((Err(BadRecord::CutShort), &[])),
            }
        }
        [_] => Some((Err(BadRecord::CutShort), &[])),
    }
}

// The records of a script, one after another.
#[derive(Drop)]
pub struct Records<'a>(pub &'a [u8]);

impl<'a> Iterator for Records<'a> {
    type Item = Record<'a>;

    ghost next_gives = { YieldsFirstBy item_of (λ s. items s.0.now) };

    ghost remaining = { λ s. at_most (length s.0.now) };

    fn next(&mut self) -> Option<Record<'a>> {
        let (record, rest) = next_record(self.0)?;
        self.0 = rest;
        Some(record)
    }
}

// The number of a script's records.
pub fn count_records(script: &[u8]) -> usize
    ensures { result ≡ length (items script.now) }
{
    Records(script).count()
}
