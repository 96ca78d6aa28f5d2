// What a task is, and the place where it lives.
ghost use Rattle.std.specs.Prelude.{◌≡◌, [], Some, None};
ghost use Rattle.tasks.specs.Tables.{entries, shown, names};

use machine::Entry;
use ranges::Table;

// A task: its map entries, at most 16 of them.
pub type Task = Table<Entry, 16>;

// The place of a task: none lives there if it is empty.
pub type Place = Option<Task>;

// A place where no task lives.
pub fn idle() -> Place
    ensures { shown result ≡ None }
{
    None
}

// A place where a task lives that has no entries.
pub fn started() -> Place
    ensures { shown result ≡ Some [] }
{
    Some(Table::new(Entry::default()))
}

// Whether an entry of the task is on the record.
pub fn names(task: &Task, sharing: u8) -> bool
    ensures { result ≡ names sharing (entries task.now) }
{
    task.rows().iter().any(|row| row.sharing == sharing)
}
