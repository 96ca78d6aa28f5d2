// Edits of the whole frame table.
ghost use Rattle.std.specs.Prelude.{◌≡◌, ℕ, None, slice_index_or};
ghost use Rattle.chains.specs.Walks.{dropped, lifted};

use crate::scan::frame_of;
use chains::Owner;

// A frame's owner once `lower` has collapsed into `upper`, which has the frames `before`. The two objects stay two numbers: a
// pair of them would be made for one collapse, and taken apart in each function that it is handed to.
fn risen(
    before: &[Option<Owner>; 128],
    owner: Option<Owner>,
    lower: u16,
    upper: u16,
) -> Option<Owner>
    ensures { result ≡ lifted 128 (λ s. slice_index_or before.now s None) lower upper owner }
{
    let holder = owner?;
    if holder.object != lower {
        return Some(holder);
    }
    let heir = Owner {
        object: upper,
        ..holder
    };
    frame_of(before, heir).is_none().then_some(heir)
}

// Frees the frames of an object.
pub fn drop_frames(frames: &mut [Option<Owner>; 128], object: u16)
    ensures { (s : ℕ) → slice_index_or frames.new s None ≡ dropped object (slice_index_or frames.old s None) }
{
    for owner in frames {
        *owner = owner.filter(|holder| holder.object != object);
    }
}

// Moves the frames of `lower` up where `upper` has none for their index, and frees the others.
pub fn lift_frames(frames: &mut [Option<Owner>; 128], lower: u16, upper: u16)
    ensures { (s : ℕ) → slice_index_or frames.new s None ≡ lifted 128 (λ k. slice_index_or frames.old k None) lower upper (slice_index_or frames.old s None) }
{
    let before = *frames;
    for owner in frames {
        *owner = risen(&before, *owner, lower, upper);
    }
}
