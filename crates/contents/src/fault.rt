// Why a cell's bytes cannot be had.
ghost use Rattle.std.specs.Prelude.{◌≡◌};

use pagers::PagerFault;

// The page of an object that was to be fetched.
#[derive(Clone, Copy, PartialEq, Eq, Debug)]
pub struct Wanted {
    pub object: u16,
    pub page: u16,
}

// A pager's fault, and the page whose fetch met it.
#[derive(Clone, Copy, PartialEq, Eq, Debug)]
pub struct ObjectFault {
    pub fault: PagerFault,
    pub wanted: Wanted,
}

impl From<(PagerFault, Wanted)> for ObjectFault {
    ghost from_gives = { λ x r. (r.fault ≡ x.0) × (r.wanted ≡ x.1) };

    fn from(x: (PagerFault, Wanted)) -> ObjectFault {
        let (fault, wanted) = x;
        ObjectFault { fault, wanted }
    }
}
