// What a walk does at one object.
ghost use Rattle.std.specs.Prelude.{◌≡◌};
ghost use Rattle.chains.specs.Rows.{source};
ghost use Rattle.objects.specs.Says.{step_at};

use crate::scan::frame_of;
use crate::tables::Tables;
use chains::{Backing, End, Origin, Owner};
use std::ops::ControlFlow;

// Where a walk ends that finds no frame.
fn end_at(origin: Origin, index: u16) -> End
    ensures { result ≡ source origin index }
{
    match origin {
        Origin::Zeros => End::Zeros,
        Origin::Page { object, first } => End::Page {
            object,
            page: u32::from(first) + u32::from(index),
        },
    }
}

impl Tables {
    // What a walk does at the object, if that is live: it ends, or goes on to the object below.
    pub(crate) fn step(&self, at: Owner) -> Option<ControlFlow<End, u16>>
        ensures { result ≡ step_at self.now at.object at.index }
    {
        if let Some(slot) = frame_of(&self.frames, at) {
            return Some(ControlFlow::Break(End::Frame(slot)));
        }
        match *self.objects.get(at.object as usize)? {
            Backing::Free => None,
            Backing::Root(origin) => Some(ControlFlow::Break(end_at(origin, at.index))),
            Backing::Shadow(lower) => Some(ControlFlow::Continue(lower)),
        }
    }
}
