//! One slot.

ghost use Rattle.std.specs.Prelude.{◌≡◌, pos, true, false, None, Some, option_map, MatchOption, OnErr, IfOk, OnOk, IsErrOf};
ghost use Rattle.evm_meter.specs.Meters.{measured, IsLess};
ghost use Rattle.evm_watch.specs.Slots.{Seen, Gone, seen_of, IsKept, seen_watches, seen_reading, seen_is_free, seen_attached, CanMove, seen_moved, seen_committed, seen_abandoned};

use super::near::Parts;
use evm_meter::Meter;
use evm_rows::NoMemory;
use evm_script::Name;
use evm_tiles::Tiles;
use std::alloc::Global;
use std::mem;

/// A meter, and the name that it watches.
#[derive(Drop)]
pub(crate) enum Slot<M: Meter> {
    /// The meter watches no name.
    Free(M),
    /// The meter watches this name, and has a reading. It has a pending one exactly where a change was prepared.
    Watches {
        name: Name,
        meter: M,
        prepared: bool,
    },
    /// The meter was given up.
    Gone,
}

/// Why no meter was attached.
#[derive(Clone, Copy, Debug, PartialEq, Eq)]
pub enum AttachError {
    /// There is no such slot, or its meter watches a name already or was given up.
    Slot,
    /// There was no memory.
    NoMemory,
}

impl<M: Meter> Slot<M> {
    /// Whether it watches a name.
    pub(crate) fn watches(&self, name: &Name) -> bool
        ensures { result ≡ seen_watches name.now (seen_of M.kind M.reading M.pending self.now) }
    {
        match self {
            Slot::Watches { name: other, .. } => name.same(other),
            _ => false,
        }
    }

    /// The reading, or none exactly where it watches no name.
    pub(crate) fn reading(&self) -> Option<i128>
        requires { IsKept M.reading M.pending self.now }
        ensures { result
            ≡ option_map pos (seen_reading (Some (seen_of M.kind M.reading M.pending self.now))) }
    {
        match self {
            Slot::Watches { meter, .. } => Some(meter.read()),
            _ => None,
        }
    }

    /// The meter of a free slot watches a name from now on, and reads its solid.
    pub(crate) fn attach(
        &mut self,
        alloc: Global,
        name: &Name,
        solid: &Tiles,
    ) -> Result<i128, AttachError>
        requires { IsKept M.reading M.pending self.old }
        ensures kept { IsKept M.reading M.pending self.new }
        ensures ok { OnOk result (seen_of M.kind M.reading M.pending self.new
            ≡ seen_attached name.now solid.now
            (Some (seen_of M.kind M.reading M.pending self.old))) }
        ensures read { IfOk result (λ n. Some n
            ≡ option_map pos
            (seen_reading (Some (seen_of M.kind M.reading M.pending self.new)))) }
        ensures free { OnOk result
            (seen_is_free (Some (seen_of M.kind M.reading M.pending self.old)) ≡ true) }
        ensures slot { IsErrOf result AttachError.Slot
            → seen_is_free (Some (seen_of M.kind M.reading M.pending self.old)) ≡ false }
        ensures refused { seen_is_free (Some (seen_of M.kind M.reading M.pending self.old)) ≡ false
            → IsErrOf result AttachError.Slot }
        ensures err { OnErr result (seen_of M.kind M.reading M.pending self.new
            ≡ seen_of M.kind M.reading M.pending self.old) }
    {
        match mem::replace(self, Slot::Gone) {
            Slot::Free(free) => {
                let mut meter = free;
                match read_whole(&mut meter, alloc, solid) {
                    Ok(reading) => {
                        *self = Slot::Watches {
                            name: *name,
                            meter,
                            prepared: false,
                        };
                        Ok(reading)
                    }
                    Err(NoMemory) => {
                        *self = Slot::Free(meter);
                        Err(AttachError::NoMemory)
                    }
                }
            }
            other => {
                *self = other;
                Err(AttachError::Slot)
            }
        }
    }

    /// Gives up the meter of a slot that watches a name, and answers its reading; none, with nothing changed, where it watches none.
    pub(crate) fn detach(&mut self) -> Option<i128>
        requires { IsKept M.reading M.pending self.old }
        ensures kept { IsKept M.reading M.pending self.new }
        ensures value { result
            ≡ option_map pos (seen_reading (Some (seen_of M.kind M.reading M.pending self.old))) }
        ensures gone { MatchOption result
            (seen_of M.kind M.reading M.pending self.new
            ≡ seen_of M.kind M.reading M.pending self.old)
            (λ n. seen_of M.kind M.reading M.pending self.new ≡ Gone) }
    {
        match mem::replace(self, Slot::Gone) {
            Slot::Watches { meter, .. } => Some(meter.read()),
            other => {
                *self = other;
                None
            }
        }
    }

    /// Hands the parts of a change to the meter, if it watches this name. After want of memory nothing is pending there.
    pub(crate) fn prepare(
        &mut self,
        alloc: Global,
        name: &Name,
        parts: &Parts,
    ) -> Result<(), NoMemory>
        requires kept { IsKept M.reading M.pending self.old }
        requires near { CanMove name.now parts.now.before parts.now.after
            (seen_of M.kind M.reading M.pending self.old) }
        requires gained { IsLess parts.now.after parts.now.before parts.now.gained }
        requires lost { IsLess parts.now.before parts.now.after parts.now.lost }
        ensures kept { IsKept M.reading M.pending self.new }
        ensures ok { OnOk result (seen_of M.kind M.reading M.pending self.new
            ≡ seen_moved name.now parts.now.before parts.now.after
            (seen_of M.kind M.reading M.pending self.old)) }
        ensures err { OnErr result (seen_abandoned (seen_of M.kind M.reading M.pending self.new)
            ≡ seen_abandoned (seen_of M.kind M.reading M.pending self.old)) }
    {
        let Slot::Watches {
            name: other,
            meter,
            prepared,
        } = self
        else {
            return Ok(());
        };
        if !name.same(other) {
            return Ok(());
        }
        meter.prepare(
            alloc,
            parts.before.rows(),
            parts.gained.rows(),
            parts.lost.rows(),
            parts.after.rows(),
        )?;
        *prepared = true;
        Ok(())
    }

    /// The pending reading, if it has one, becomes its reading.
    pub(crate) fn commit(&mut self)
        requires { IsKept M.reading M.pending self.old }
        ensures kept { IsKept M.reading M.pending self.new }
        ensures seen { seen_of M.kind M.reading M.pending self.new
            ≡ seen_committed (seen_of M.kind M.reading M.pending self.old) }
    {
        if let Slot::Watches {
            meter,
            prepared,
            ..
        } = self
        {
            if *prepared {
                meter.commit();
                *prepared = false;
            }
        }
    }

    /// Forgets a pending reading.
    pub(crate) fn abandon(&mut self)
        requires { IsKept M.reading M.pending self.old }
        ensures kept { IsKept M.reading M.pending self.new }
        ensures seen { seen_of M.kind M.reading M.pending self.new
            ≡ seen_abandoned (seen_of M.kind M.reading M.pending self.old) }
    {
        if let Slot::Watches {
            meter,
            prepared,
            ..
        } = self
        {
            meter.abandon();
            *prepared = false;
        }
    }
}

// The reading of a whole solid.
fn read_whole<M: Meter>(meter: &mut M, alloc: Global, solid: &Tiles) -> Result<i128, NoMemory>
    ensures kind { M.kind meter.new ≡ M.kind meter.old }
    ensures ok { IfOk result
        (λ n. (M.reading meter.new ≡ Some (measured (M.kind meter.old) solid.now))
        × (M.pending meter.new ≡ None)
        × (Some n ≡ option_map pos (M.reading meter.new))) }
    ensures err { OnErr result
        ((M.reading meter.new ≡ M.reading meter.old)
        × (M.pending meter.new ≡ M.pending meter.old)) }
{
    let whole = solid.to_rows(alloc)?;
    meter.begin(alloc, whole.rows())?;
    Ok(meter.read())
}
