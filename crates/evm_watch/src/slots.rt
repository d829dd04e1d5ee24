//! The list of slots.

ghost use Rattle.std.specs.Prelude.{◌≡◌, true, false, pos, map, set, length, Some, option_map, MatchOption, IfOk, OnOk, OnErr, IsErrOf};
ghost use Rattle.std.specs.List.{list_any, slice_get};
ghost use Rattle.evm_rows.specs.Rows.{Vertices};
ghost use Rattle.evm_meter.specs.Meters.{measured};
ghost use Rattle.evm_watch.specs.Slots.{Seen, Free, Gone, seen_watches, seen_reading, seen_is_free, seen_attached, EachReads, seen_prepared, seen_committed, seen_abandoned, IsMoved};

use super::near::parts_round;
use super::slot::{AttachError, Slot};
use evm_meter::Meter;
use evm_rows::{NoMemory, Solid};
use evm_script::Name;
use evm_tiles::Tiles;
use std::alloc::Global;
use std::marker::Model;

/// The meters that were handed in, each in its slot, counted from 0.
#[derive(Drop)]
pub struct Slots<M: Meter> {
    list: Vec<Slot<M>>,
}

impl<M: Meter> Model for Slots<M> {
    ghost use Rattle.std.specs.Prelude.{List, map, All};
    ghost use Rattle.evm_watch.specs.Slots.{Seen, seen_of, IsKept};

    ghost Value = { List Seen };

    ghost view = { λ s. map (seen_of M.kind M.reading M.pending) s.list.items };

    ghost invariant = { λ s. All (IsKept M.reading M.pending) s.list.items };
}

impl<M: Meter> Slots<M> {
    /// The slots of these meters, all free. A reading that a meter comes with is not seen: its slot watches no name, so nothing is read
    /// there, and the meter forgets it when it begins. Takes memory for the list; after want of memory the meters are dropped.
    pub fn new(alloc: Global, meters: Vec<M>) -> Result<Slots<M>, NoMemory>
        ensures { IfOk result (λ s. s ≡ map (λ m. Free (M.kind m)) meters.items) }
    {
        let mut list = Vec::with_capacity(alloc, meters.len())?;
        for meter in meters {
            list.push(Slot::Free(meter))?;
        }
        Ok(Slots { list })
    }

    /// How many slots there are, those that are gone among them.
    pub fn count(&self) -> usize
        ensures { result ≡ length self.now }
    {
        self.list.len()
    }

    /// Whether some slot watches a name.
    pub fn watches(&self, name: &Name) -> bool
        ensures { result ≡ list_any (seen_watches name.now) self.now }
    {
        for slot in self.list.iter() {
            if slot.watches(name) {
                return true;
            }
        }
        false
    }

    /// The reading of a slot, or none exactly where it watches no name. Takes no memory.
    pub fn reading(&self, slot: usize) -> Option<i128>
        ensures { result ≡ option_map pos (seen_reading (slice_get self.now slot)) }
    {
        if slot < self.list.len() {
            self.list[slot].reading()
        } else {
            None
        }
    }

    /// The meter of a free slot watches a name from now on, whose solid this is, and answers its reading.
    ///
    /// It is `Slot` exactly where there is no such slot or it is not free, and takes no memory then. After an error nothing is
    /// changed.
    pub fn attach(
        &mut self,
        alloc: Global,
        slot: usize,
        name: &Name,
        solid: &Tiles,
    ) -> Result<i128, AttachError>
        ensures ok { OnOk result
            (self.new ≡ set self.old slot
            (seen_attached name.now solid.now (slice_get self.old slot))) }
        ensures read { IfOk result
            (λ n. Some n ≡ option_map pos (seen_reading (slice_get self.new slot))) }
        ensures free { OnOk result (seen_is_free (slice_get self.old slot) ≡ true) }
        ensures slot { IsErrOf result AttachError.Slot
            → seen_is_free (slice_get self.old slot) ≡ false }
        ensures refused { seen_is_free (slice_get self.old slot) ≡ false
            → IsErrOf result AttachError.Slot }
        ensures err { OnErr result (self.new ≡ self.old) }
    {
        if self.list.len() <= slot {
            return Err(AttachError::Slot);
        }
        self.list[slot].attach(alloc, name, solid)
    }

    /// Gives up the meter of a slot, and answers its last reading: none exactly where the slot watches no name, and then nothing is
    /// changed. The slot is gone for good.
    pub fn detach(&mut self, slot: usize) -> Option<i128>
        ensures value { result ≡ option_map pos (seen_reading (slice_get self.old slot)) }
        ensures gone { MatchOption result (self.new ≡ self.old) (λ n. self.new ≡ set self.old slot Gone) }
    {
        if slot < self.list.len() {
            self.list[slot].detach()
        } else {
            None
        }
    }

    /// Prepares the change of a name from one solid to another, by the exclusive or of the two, in each slot that watches it. Takes
    /// memory for the parts of the solid within 1 of the change's least box. The one error is want of memory; the readings are as
    /// before then, and some may be pending.
    pub fn prepare(
        &mut self,
        alloc: Global,
        name: &Name,
        before: &Tiles,
        delta: &Solid,
        after: &Tiles,
    ) -> Result<(), NoMemory>
        requires moved { IsMoved before.now delta.now after.now }
        requires reads { EachReads name.now before.now self.old }
        ensures ok { OnOk result (self.new ≡ map (seen_prepared name.now after.now) self.old) }
        ensures err { OnErr result (map seen_abandoned self.new ≡ map seen_abandoned self.old) }
    {
        // Only its cells matter here, and they are those of `before` and the change.
        let _after = after;
        if !self.watches(name) {
            return Ok(());
        }
        let near = parts_round(alloc, before, delta.rows())?;
        for index in 0..self.list.len() {
            self.list[index].prepare(alloc, name, &near)?;
        }
        Ok(())
    }

    /// Each pending reading becomes the reading of its slot. Takes no memory.
    pub fn commit(&mut self)
        ensures { self.new ≡ map seen_committed self.old }
    {
        for slot in self.list.iter_mut() {
            slot.commit();
        }
    }

    /// Forgets each pending reading. Takes no memory.
    pub fn abandon(&mut self)
        ensures { self.new ≡ map seen_abandoned self.old }
    {
        for slot in self.list.iter_mut() {
            slot.abandon();
        }
    }
}
