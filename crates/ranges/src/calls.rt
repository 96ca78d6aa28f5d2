// The calls of a table.
ghost use Rattle.std.specs.Prelude.{◌≡◌, ◌+◌, ◌<◌, ◌≤◌, true, not, ◌||◌, [], ◌∷◌, ◌++◌, length, OnOk};
ghost use Rattle.ranges.specs.Shape.{proper};
ghost use Rattle.ranges.specs.Tables.{rising, said, taken, inserted, removed, altered, covered};
ghost use Rattle.ranges.specs.Says.{Inserts, Removes, Alters};
ghost use Rattle.ranges.specs.Held.{held, overfull, Becomes};

use crate::edit::{change, insert, remove};
use crate::element::{Change, Element};
use crate::range::Range;
use crate::scan::{covers, find, is_taken};
use crate::table::Table;

// An edit was refused, and the table is as it was.
#[derive(Clone, Copy, Debug, PartialEq, Eq)]
pub struct Refused;

impl<E: Element, const N: usize> Table<E, N> {
    // A table without elements, whose rows are all `unused`.
    pub fn new(unused: E) -> Table<E, N>
        ensures { held result ≡ [] }
    {
        Table {
            rows: [unused; N],
            len: 0,
        }
    }

    // The elements.
    pub fn rows(&self) -> &[E]
        ensures is { result.now ≡ held self.now }
        ensures rising { rising E.Element.shape 0 (held self.now) ≡ true }
    {
        &self.rows[..self.len]
    }

    // How many elements there are.
    pub fn len(&self) -> usize
        ensures count { result ≡ length (held self.now) }
        ensures few { result ≤ N }
    {
        self.rows().len()
    }

    // What the table says of a page.
    pub fn find(&self, page: u16) -> Option<E>
        ensures { result ≡ said E.Element.shape page (held self.now) }
    {
        find(self.rows(), page)
    }

    // Whether the table says something of each page of the range.
    pub fn covers(&self, range: Range) -> bool
        ensures { result ≡ covered E.Element.shape range.first range.pages (held self.now) }
    {
        covers(self.rows(), range)
    }

    // Whether an element has a page in common with `e`.
    pub fn meets(&self, e: &E) -> bool
        ensures { result ≡ taken E.Element.shape e.now (held self.now) }
    {
        is_taken(self.rows(), e)
    }

    // Puts an element at its place: refused if one of its pages is taken or the table is full.
    #[tactic(auto, using(crate::proofs::Tables::refused_table))]
    pub fn insert(&mut self, e: E) -> Result<(), Refused>
        requires { proper E.Element.shape e ≡ true }
        ensures becomes { Becomes self.old self.new (inserted E.Element.shape e (held self.old)) (not (taken E.Element.shape e (held self.old) || overfull N (inserted E.Element.shape e (held self.old)))) result }
        ensures says { OnOk result (Inserts E.Element.shape e (held self.old) (held self.new)) }
    {
        self.len = insert(&mut self.rows, self.len, e).ok_or(Refused)?;
        Ok(())
    }

    // Puts an element behind the last.
    pub fn push(&mut self, e: E)
        requires room { length (held self.old) < N }
        requires rises { rising E.Element.shape 0 (held self.old ++ (e ∷ [])) ≡ true }
        ensures { held self.new ≡ held self.old ++ (e ∷ []) }
    {
        let at = self.len;
        self.rows[at] = e;
        self.len = at + 1;
    }

    // Takes the range's pages out: refused if what is left does not fit.
    #[tactic(auto, using(crate::proofs::Tables::refused_table))]
    pub fn remove(&mut self, range: Range) -> Result<(), Refused>
        ensures becomes { Becomes self.old self.new (removed E.Element.shape range.first (range.first + range.pages) (held self.old)) (not (overfull N (removed E.Element.shape range.first (range.first + range.pages) (held self.old)))) result }
        ensures says { OnOk result (Removes E.Element.shape range.first (range.first + range.pages) (held self.old) (held self.new)) }
    {
        self.len = remove(&mut self.rows, self.len, range).ok_or(Refused)?;
        Ok(())
    }

    // Changes what is said of the range's pages, after cuts at the range's ends: refused if the elements then do not fit.
    #[tactic(auto, using(crate::proofs::Tables::refused_table))]
    pub fn change<C: Change<E>>(&mut self, range: Range, by: &C) -> Result<(), Refused>
        ensures becomes { Becomes self.old self.new (altered E.Element.shape (C.Change.alters by.now) range.first (range.first + range.pages) (held self.old)) (not (overfull N (altered E.Element.shape (C.Change.alters by.now) range.first (range.first + range.pages) (held self.old)))) result }
        ensures says { OnOk result (Alters E.Element.shape (C.Change.alters by.now) range.first (range.first + range.pages) (held self.old) (held self.new)) }
    {
        self.len = change(&mut self.rows, self.len, range, by).ok_or(Refused)?;
        Ok(())
    }
}
