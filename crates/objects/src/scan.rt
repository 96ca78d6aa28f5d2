// Looks through one table, and changes nothing.
ghost use Rattle.std.specs.Prelude.{◌≡◌, not, is_some, count_by, position, Some, None, slice_index_or};
ghost use Rattle.chains.specs.declared.Backing.TheVariants.{Free};
ghost use Rattle.chains.specs.Rows.{live, is_shadowing, is_owned_by};
ghost use Rattle.chains.specs.Walks.{lowest, slot_of};

use chains::{Backing, Owner};

// The place of the first row that is as wanted.
pub fn first_of<T: PartialEq>(rows: &[T], wanted: &T) -> Option<usize>
    ensures { result ≡ position (λ row. T.eq row wanted.now) rows.now }
{
    rows.iter().position(|row| row == wanted)
}

// How many rows are as wanted.
pub fn count_of<T: PartialEq>(rows: &[T], wanted: &T) -> usize
    ensures { result ≡ count_by (λ row. T.eq row wanted.now) rows.now }
{
    rows.iter().filter(|row| *row == wanted).count()
}

// The lowest record that is not in use.
pub fn unused(records: &[Option<u16>; 256]) -> Option<u8>
    ensures { result ≡ lowest 256 (λ k. not (is_some (slice_index_or records.now k None))) }
{
    first_of(records, &None).map(|record| record as u8)
}

// The lowest object row that is not in use.
pub fn free(objects: &[Backing; 511]) -> Option<u16>
    ensures { result ≡ lowest 511 (λ k. not (live (slice_index_or objects.now k Free))) }
{
    first_of(objects, &Backing::Free).map(|object| object as u16)
}

// The lowest object that is a shadow of the object.
pub fn upper(objects: &[Backing; 511], object: u16) -> Option<u16>
    ensures { result ≡ lowest 511 (λ k. is_shadowing object (slice_index_or objects.now k Free)) }
{
    first_of(objects, &Backing::Shadow(object)).map(|shadow| shadow as u16)
}

// Whether the frame is the owner's. By `first_of`, a walk took twice as long.
fn belongs(held: &Option<Owner>, owner: Owner) -> bool
    ensures { result ≡ is_owned_by owner.object owner.index held.now }
{
    held.is_some_and(|holder| holder == owner)
}

// The place of the owner's frame.
fn owned_by(frames: &[Option<Owner>], owner: Owner) -> Option<usize>
    ensures { result ≡ position (is_owned_by owner.object owner.index) frames.now }
{
    frames.iter().position(|held| belongs(held, owner))
}

// The frame that belongs to the owner.
pub fn frame_of(frames: &[Option<Owner>; 128], owner: Owner) -> Option<u8>
    ensures { result ≡ slot_of 128 (λ k. slice_index_or frames.now k None) owner.object owner.index }
{
    owned_by(frames, owner).map(|slot| slot as u8)
}

// How many rows of a table are in use. `count_of` cannot say it: these are the rows that are unlike one row, `None`. A plain loop:
// a filter that is counted took three times as long.
pub fn rows_in_use<T>(rows: &[Option<T>]) -> usize
    ensures { result ≡ count_by is_some rows.now }
{
    let mut count = 0;
    for row in rows {
        if row.is_some() {
            count += 1;
        }
    }
    count
}
