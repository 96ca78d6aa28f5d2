// The rows of the tables of memory objects, and where a walk through them ends.
#![tactic(auto)]

ghost use Rattle.std.specs.Prelude.{◌≡◌};
ghost use Rattle.chains.specs.declared.Backing.TheVariants.{Free};

// What the pages of a root object are to begin with: zeros, or the pages of a pager's object from page `first` on. Zeros are
// a source of their own here, and not the want of one, so this is no `Option`.
#[derive(Clone, Copy, Debug, PartialEq, Eq)]
pub enum Origin {
    Zeros,
    Page { object: u16, first: u16 },
}

// A row of the object table. A shadow names the object below by its row's number: the table is an array, on no heap. `Free`
// is no `None`: a row is one type with methods of its own, lent and altered through `&mut self`, and std's `Option` takes none.
#[derive(Clone, Copy, Debug, PartialEq, Eq)]
pub enum Backing {
    Free,
    Root(Origin),
    Shadow(u16),
}

// The object and the index that a held frame belongs to.
#[derive(Clone, Copy, Debug, PartialEq, Eq)]
pub struct Owner {
    pub object: u16,
    pub index: u16,
}

// Where a walk ends: at a frame's slot, at zeros, or at a page of a pager's object.
#[derive(Clone, Copy, Debug, PartialEq, Eq)]
pub enum End {
    Frame(u8),
    Zeros,
    Page { object: u16, page: u32 },
}

// A walk: its end, and the number of objects that it visits.
#[derive(Clone, Copy, Debug, PartialEq, Eq)]
pub struct Walk {
    pub end: End,
    pub length: u16,
}

impl Backing {
    // The row of an object that collapses: gives up its backing, and is free.
    pub fn give_up(&mut self) -> Backing
        ensures was { result ≡ self.old }
        ensures free { self.new ≡ Free }
    {
        std::mem::replace(self, Backing::Free)
    }

    // The row of the one object that shadows it: takes over the backing.
    pub fn take_over(&mut self, backing: Backing)
        ensures { self.new ≡ backing }
    {
        *self = backing;
    }
}
