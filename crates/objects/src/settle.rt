// Freeing and collapsing objects once they have lost a reference.
ghost use Rattle.std.specs.Prelude.{◌≡◌, ℕ, ◌<◌, ◌≤◌, true, length, slice_set};
ghost use Rattle.chains.specs.declared.Backing.TheVariants.{Free};
ghost use Rattle.chains.specs.Rows.{live};
ghost use Rattle.chains.specs.Walks.{dropped, lifted};
ghost use Rattle.objects.specs.View.{backing, owner_of, weight_of, FormedTables, OthersSettled, SettledFrom};

use crate::frames::{drop_frames, lift_frames};
use crate::scan::upper;
use crate::tables::Tables;
use chains::Backing;

impl Tables {
    // Collapses `lower` into `upper`: its pages that `upper` lacks move up, and `upper` takes over its backing.
    fn collapse(&mut self, lower: u16, upper: u16)
        requires lower { lower < 511 }
        requires upper { upper < 511 }
        ensures rows { length self.old.objects ≡ 511 }
        ensures records { self.new.records ≡ self.old.records }
        ensures objects { self.new.objects ≡ slice_set (slice_set self.old.objects lower Free) upper (backing self.old lower) }
        ensures frames { (s : ℕ) → owner_of self.new s ≡ lifted 128 (owner_of self.old) lower upper (owner_of self.old s) }
    {
        let backing = self.objects[lower as usize].give_up();
        self.objects[upper as usize].take_over(backing);
        lift_frames(&mut self.frames, lower, upper);
    }

    // Frees an object and its frames. What its row was.
    fn free(&mut self, object: u16) -> Backing
        requires { object < 511 }
        ensures rows { length self.old.objects ≡ 511 }
        ensures row { result ≡ backing self.old object }
        ensures records { self.new.records ≡ self.old.records }
        ensures objects { self.new.objects ≡ slice_set self.old.objects object Free }
        ensures frames { (s : ℕ) → owner_of self.new s ≡ dropped object (owner_of self.old s) }
    {
        let row = self.objects[object as usize].give_up();
        drop_frames(&mut self.frames, object);
        row
    }

    // Collapses an object that no record names into the only object that shadows it, if it has but one.
    fn settle(&mut self, object: u16)
        requires formed { FormedTables self.old }
        requires others { OthersSettled self.old object }
        requires referred { 1 ≤ weight_of self.old object }
        ensures { SettledFrom self.old self.new }
    {
        if self.weight(object) != 1 {
            return;
        }
        let shadow = upper(&self.objects, object).unwrap();
        self.collapse(object, shadow);
    }

    // Frees an object that has lost its last reference, or settles it; and settles what a freed one shadowed.
    pub(crate) fn forget(&mut self, object: u16)
        requires formed { FormedTables self.old }
        requires others { OthersSettled self.old object }
        requires live { live (backing self.old object) ≡ true }
        ensures { SettledFrom self.old self.new }
    {
        if self.weight(object) != 0 {
            self.settle(object);
            return;
        }
        if let Backing::Shadow(lower) = self.free(object) {
            self.settle(lower);
        }
    }
}
