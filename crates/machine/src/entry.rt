// Map entries as elements of a range table.
ghost use Rattle.std.specs.Prelude.{◌≡◌};
ghost use Rattle.machine.specs.Entries.{entry_shape, entry_laws, protected, inheriting, protected_still, inheriting_still};

use crate::words::{Entry, Inheritance, Protection};
use ranges::{Change, Element};

impl Element for Entry {
    ghost shape = { entry_shape };

    ghost laws = { entry_laws };

    fn first(&self) -> u16 {
        self.first
    }

    fn pages(&self) -> u16 {
        self.pages
    }

    fn part(&self, first: u16, pages: u16) -> Entry {
        Entry {
            first,
            pages,
            index: self.index + (first - self.first),
            ..*self
        }
    }

    fn one(&self, page: u16) -> Entry {
        self.part(page, 1)
    }
}

// As a change, a protection gives each entry itself.
impl Change<Entry> for Protection {
    ghost alters = { protected };

    ghost still = { protected_still };

    fn apply(&self, e: Entry) -> Entry {
        Entry {
            protection: *self,
            ..e
        }
    }
}

// As a change, an inheritance gives each entry itself.
impl Change<Entry> for Inheritance {
    ghost alters = { inheriting };

    ghost still = { inheriting_still };

    fn apply(&self, e: Entry) -> Entry {
        Entry {
            inheritance: *self,
            ..e
        }
    }
}
