//! A finite map from names to bytes, in memory.

ghost use Rattle.std.specs.Prelude.{◌≡◌, List, ℕ, OnOk, OnErr};
ghost use Rattle.std.specs.Option.{option_map};
ghost use Rattle.std.specs.FinMap as map;

use super::NoMemory;
use std::alloc::Global;
use std::collections::BTreeMap;
use std::marker::Model;

/// Files by name, in the order of their names.
#[derive(Drop)]
pub struct Table {
    entries: BTreeMap<Vec<u8>, Vec<u8>>,
}

impl Model for Table {
    ghost use Rattle.std.specs.Coded.{coded_ℕ, coded_list};
    ghost use Rattle.std.specs.FinMap as map;
    ghost use Rattle.evm_outside.specs.Shelves.{Files};
    ghost use Rattle.evm_outside.specs.Tables.{files_of};

    ghost Value = { Files };

    ghost coded = { map.code (coded_list coded_ℕ) (coded_list coded_ℕ) };

    ghost view = { λ t. files_of t.entries.entries };
}

impl Table {
    /// No files. Takes no memory.
    pub fn new(alloc: Global) -> Table
        ensures { result ≡ map.empty }
    {
        Table {
            entries: BTreeMap::new(alloc),
        }
    }

    /// The bytes under a name, if there are any.
    pub fn get(&self, name: &[u8]) -> Option<&[u8]>
        ensures { option_map (λ bytes. bytes.now) result ≡ map.get self.now name.now }
    {
        match self.entries.get(name) {
            Some(bytes) => Some(bytes.as_slice()),
            None => None,
        }
    }

    /// Sets the bytes under one name, in memory of their own. After [`NoMemory`] all is as before.
    pub fn set(&mut self, alloc: Global, name: &[u8], bytes: &[u8]) -> Result<(), NoMemory>
        ensures ok { OnOk result (self.new ≡ map.insert self.old name.now bytes.now) }
        ensures err { OnErr result (self.new ≡ self.old) }
    {
        let Ok(name) = Vec::from_slice(alloc, name) else {
            return Err(NoMemory);
        };
        let Ok(bytes) = Vec::from_slice(alloc, bytes) else {
            return Err(NoMemory);
        };
        match self.entries.insert(name, bytes) {
            Ok(_) => Ok(()),
            Err(_) => Err(NoMemory),
        }
    }
}
