// The calls of a store. None asks anything of its caller.
ghost use Rattle.std.specs.Prelude.{◌≡◌, ℕ, ◌≤◌, min, true, false, not, is_some, IfSome, if◌then◌else◌, Some, None};
ghost use Rattle.chains.specs.declared.End.TheVariants.{Frame};
ghost use Rattle.chains.specs.Rows.{live, own};
ghost use Rattle.chains.specs.Walks.{lowest, slot_of};
ghost use Rattle.objects.specs.View.{backing, owner_of, in_use, is_held, records_used, frames_held, walk_end, walk_length};
ghost use Rattle.objects.specs.Says.{unused_record, UsesMore, UsesLess, UsesSame, Starts, Copies, KeepsWalks, KeepsOthers, KeepsApart, KeepsWithout, KeepsOwners, FreesOnly, HoldsReached, index_of, placeable, TakesOwn, TakesShared};

use crate::scan::{first_of, frame_of, free, rows_in_use, unused};
use crate::store::Store;
use crate::tables::Tables;
use chains::{Backing, Origin, Owner, Walk};
use std::ops::ControlFlow;

impl Store {
    // No record in use, no object live, no frame held.
    pub fn new() -> Store
        ensures records { (k : ℕ) → in_use result.tables k ≡ false }
        ensures objects { (o : ℕ) → live (backing result.tables o) ≡ false }
        ensures frames { (s : ℕ) → owner_of result.tables s ≡ None }
    {
        Store {
            tables: Tables {
                records: [None; 256],
                objects: [Backing::Free; 511],
                frames: [None; 128],
            },
        }
    }

    // Whether the record is in use.
    pub fn in_use(&self, sharing: u8) -> bool
        ensures { result ≡ in_use self.now.tables sharing }
    {
        self.tables.records[sharing as usize].is_some()
    }

    // How many records are in use.
    #[tactic(auto, using(crate::proofs::Scans::records_counted))]
    pub fn records_in_use(&self) -> usize
        ensures { result ≡ records_used self.now.tables }
    {
        rows_in_use(&self.tables.records)
    }

    // How many frames are held.
    #[tactic(auto, using(crate::proofs::Scans::frames_counted))]
    pub fn held(&self) -> usize
        ensures { result ≡ frames_held self.now.tables }
    {
        rows_in_use(&self.tables.frames)
    }

    // The lowest frame below the limit that is not held.
    pub fn free_slot(&self, limit: u8) -> Option<u8>
        ensures { result ≡ lowest (min limit 128) (λ s. not (is_held self.now.tables s)) }
    {
        let below = limit.min(128) as usize;
        first_of(&self.tables.frames[..below], &None).map(|slot| slot as u8)
    }

    // The owner of a held frame.
    pub fn owner(&self, slot: u8) -> Option<Owner>
        ensures answer { result ≡ owner_of self.now.tables slot }
        ensures fixes { (k i : ℕ) → walk_end self.now.tables k i ≡ Some (Frame slot) → index_of result ≡ Some i }
    {
        *self.tables.frames.get(slot as usize)?
    }

    // The frame that belongs to the owner.
    pub fn frame_at(&self, owner: Owner) -> Option<u8>
        ensures answer { result ≡ slot_of 128 (owner_of self.now.tables) owner.object owner.index }
        ensures only { (s : ℕ) → owner_of self.now.tables s ≡ Some owner → result ≡ Some s }
    {
        frame_of(&self.tables.frames, owner)
    }

    // The walk for a record and an index: where it ends, and the number of objects that it visits. None if the record
    // is not in use. The two stay apart, as in `put` and in `load` of `contents`: a map entry has the record, and with
    // the page it gives the index, so a pair would be made for each such call, only to be taken apart.
    pub fn walk(&self, sharing: u8, index: u16) -> Option<Walk>
        ensures used { is_some result ≡ in_use self.now.tables sharing }
        ensures end { IfSome result (λ w. walk_end self.now.tables sharing index ≡ Some w.end) }
        ensures length { IfSome result (λ w. walk_length self.now.tables sharing index ≡ w.length) }
        ensures short { IfSome result (λ w. w.length ≤ records_used self.now.tables) }
    {
        let mut object = self.tables.records[sharing as usize]?;
        // `length` is no index: it is the number of objects visited, a part of the answer.
        for length in 1..257u16 {
            match self.tables.step(Owner { object, index })? {
                ControlFlow::Break(end) => return Some(Walk { end, length }),
                ControlFlow::Continue(lower) => object = lower,
            }
        }
        None
    }

    // A new record over a new root object. None if all records are in use.
    pub fn open(&mut self, origin: Origin) -> Option<u8>
        ensures answer { result ≡ unused_record self.old.tables }
        ensures full { result ≡ None → records_used self.old.tables ≡ 256 }
        ensures refused { result ≡ None → self.new.tables ≡ self.old.tables }
        ensures uses { IfSome result (UsesMore self.old.tables self.new.tables) }
        ensures starts { IfSome result (λ n. Starts self.new.tables n origin) }
        ensures keeps { KeepsWalks self.old.tables self.new.tables }
        ensures frames { self.new.tables.frames ≡ self.old.tables.frames }
    {
        let sharing = unused(&self.tables.records)?;
        // One is free: fewer than 256 records need fewer than 511 objects.
        let object = free(&self.tables.objects).unwrap();
        self.tables.objects[object as usize] = Backing::Root(origin);
        self.tables.records[sharing as usize] = Some(object);
        Some(sharing)
    }

    // A new record on the top of a record in use. None if that is not in use, or all are.
    pub fn copy(&mut self, sharing: u8) -> Option<u8>
        ensures answer { result ≡ (if in_use self.old.tables sharing then unused_record self.old.tables else None) }
        ensures full { result ≡ None → in_use self.old.tables sharing ≡ true → records_used self.old.tables ≡ 256 }
        ensures refused { result ≡ None → self.new.tables ≡ self.old.tables }
        ensures uses { IfSome result (UsesMore self.old.tables self.new.tables) }
        ensures copies { IfSome result (λ n. Copies self.old.tables self.new.tables n sharing) }
        ensures keeps { KeepsWalks self.old.tables self.new.tables }
        ensures frames { self.new.tables.frames ≡ self.old.tables.frames }
    {
        let object = self.tables.records[sharing as usize]?;
        let fresh = unused(&self.tables.records)?;
        self.tables.records[fresh as usize] = Some(object);
        Some(fresh)
    }

    // Closes a record, and frees or collapses what it leaves behind. False if it is not in use: a bool, as a set's `remove`
    // answers, since there is no value to give and one reason alone; so too for `release`.
    pub fn close(&mut self, sharing: u8) -> bool
        ensures answer { result ≡ in_use self.old.tables sharing }
        ensures refused { result ≡ false → self.new.tables ≡ self.old.tables }
        ensures uses { UsesLess self.old.tables self.new.tables sharing }
        ensures keeps { KeepsOthers self.old.tables self.new.tables sharing }
        ensures frees { FreesOnly self.old.tables self.new.tables }
        ensures reached { HoldsReached self.old.tables self.new.tables sharing }
    {
        let Some(object) = self.tables.records[sharing as usize] else {
            return false;
        };
        self.tables.records[sharing as usize] = None;
        self.tables.forget(object);
        true
    }

    // The place for a write: the frame comes to belong to the record's top at the index, whether it was free, stays or
    // moves up; if something else refers to the top, a new shadow comes between first. False if the record is not in
    // use, there is no such frame, or another frame is there in a top to which nothing else refers: a bool and no error with
    // a case for each, since the contract gives it as one test, `placeable`, and no caller would tell the cases apart.
    pub fn put(&mut self, sharing: u8, index: u16, slot: u8) -> bool
        ensures answer { result ≡ placeable self.old.tables sharing index slot }
        ensures own { TakesOwn self.old.tables sharing index slot result }
        ensures shared { TakesShared self.old.tables sharing index slot result }
        ensures refused { result ≡ false → self.new.tables ≡ self.old.tables }
        ensures uses { UsesSame self.old.tables self.new.tables }
        ensures here { result ≡ true → (walk_end self.new.tables sharing index ≡ Some (Frame slot)) × (walk_length self.new.tables sharing index ≡ 1) }
        ensures index { result ≡ true → index_of (owner_of self.new.tables slot) ≡ Some index }
        ensures others { KeepsApart self.old.tables self.new.tables sharing index slot }
        ensures slots { KeepsOwners self.old.tables self.new.tables slot }
    {
        let Some(object) = self.tables.records[sharing as usize] else {
            return false;
        };
        if slot >= 128 {
            return false;
        }
        if self.tables.weight(object) > 2 {
            // One is free: all 511 are live only while no top is shared.
            let shadow = free(&self.tables.objects).unwrap();
            self.tables.objects[shadow as usize] = Backing::Shadow(object);
            self.tables.records[sharing as usize] = Some(shadow);
            self.tables.frames[slot as usize] = Some(Owner {
                object: shadow,
                index,
            });
            return true;
        }
        let owner = Owner { object, index };
        if frame_of(&self.tables.frames, owner).is_some_and(|found| found != slot) {
            return false;
        }
        self.tables.frames[slot as usize] = Some(owner);
        true
    }

    // Frees a frame. False if it is not held.
    pub fn release(&mut self, slot: u8) -> bool
        ensures answer { result ≡ is_held self.old.tables slot }
        ensures refused { result ≡ false → self.new.tables ≡ self.old.tables }
        ensures records { self.new.tables.records ≡ self.old.tables.records }
        ensures free { owner_of self.new.tables slot ≡ None }
        ensures slots { KeepsOwners self.old.tables self.new.tables slot }
        ensures keeps { KeepsWithout self.old.tables self.new.tables slot }
    {
        if self.owner(slot).is_none() {
            return false;
        }
        self.tables.frames[slot as usize] = None;
        true
    }
}
