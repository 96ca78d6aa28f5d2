// The tables of a store.
ghost use Rattle.std.specs.Prelude.{◌≡◌};
ghost use Rattle.objects.specs.View.{weight_of};

use crate::scan::count_of;
use chains::{Backing, Owner};

// The top of each record in use, the row of each object, the owner of each held frame. Arrays of fixed size, and numbers
// for links, since nothing here is on a heap.
#[derive(Clone, Copy)]
pub struct Tables {
    pub(crate) records: [Option<u16>; 256],
    pub(crate) objects: [Backing; 511],
    pub(crate) frames: [Option<Owner>; 128],
}

impl Tables {
    // Twice the records that name the object, and the objects that shadow it.
    pub(crate) fn weight(&self, object: u16) -> usize
        ensures { result ≡ weight_of self.now object }
    {
        let names = count_of(&self.records, &Some(object));
        let shadows = count_of(&self.objects, &Backing::Shadow(object));
        2 * names + shadows
    }
}
