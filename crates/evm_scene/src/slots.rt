//! The slots of a scene: meters that watch its names.

ghost use Rattle.std.specs.Prelude.{◌≡◌, pos, option_map, length, MatchOption, OnOk, OnErr};
ghost use Rattle.evm_model.specs.Scene.{reading, detached};
ghost use Rattle.evm_scene.specs.Watched.{Attaches};

use super::edit::AttachError;
use super::scene::Scene;
use super::watched::attach;
use evm_meter::Meter;
use evm_script::Name;
use std::alloc::Global;

impl<M: Meter> Scene<M> {
    /// How many slots there are, those that are gone among them.
    pub fn slots(&self) -> usize
        ensures { result ≡ length self.now.slots }
    {
        self.slots.count()
    }

    /// The meter of a free slot, counted from 0, watches a name from now on, and its reading is answered: the measure of the name's
    /// whole value, now and after each edit.
    ///
    /// It is `Name` exactly where the name does not stand, else `Slot` exactly where there is no such slot or it is not free, and no
    /// memory is taken then. After an error nothing is changed. Takes the memory of the name's rows, and of the meter.
    pub fn attach(&mut self, alloc: Global, slot: usize, name: &Name) -> Result<i128, AttachError>
        ensures { Attaches result self.old self.new slot name.now }
    {
        attach(alloc, &self.table, &mut self.slots, slot, name)
    }

    /// The reading of a slot: the measure of the value that the name which it watches has now. None exactly where it watches no name.
    /// Takes no memory.
    pub fn reading(&self, slot: usize) -> Option<i128>
        ensures { result ≡ option_map pos (reading self.now (pos slot)) }
    {
        self.slots.reading(slot)
    }

    /// Gives up the meter of a slot, and answers its last reading: none exactly where the slot watches no name, and then nothing is
    /// changed. The slot is gone for good. Takes no memory.
    pub fn detach(&mut self, slot: usize) -> Option<i128>
        ensures value { result ≡ option_map pos (reading self.old (pos slot)) }
        ensures gone { MatchOption result (self.new ≡ self.old)
            (λ n. self.new ≡ detached self.old (pos slot)) }
    {
        self.slots.detach(slot)
    }
}
