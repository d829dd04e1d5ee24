//! A shelf in memory, which fails at stated calls.

ghost use Rattle.std.specs.Prelude.{◌≡◌, ◌↔◌, ◌≤◌, true, Some, None, Contains, vec_len, IfOk, OnOk, OnErr, IsErrOf, IsTrue};
ghost use Rattle.std.specs.Option.{option_map};
ghost use Rattle.std.specs.FinMap as map;
ghost use Rattle.evm_outside.specs.Shelves.{file_max, is_file_name, KeepsFiles, HasFile, PlacesFile, FetchFaults, FetchMisses, PlaceFaults};
ghost use Rattle.evm_outside.specs.Cabinets.{Finds, Fetches, cabinet_noted, cabinet_fetched, cabinet_placed};
ghost use Rattle.evm_outside.specs.Fakes.{counted};

use super::table::Table;
use super::{FILE_MAX, FetchError, NoMemory, PlaceError, Shelf};
use std::alloc::Global;
use std::marker::Model;

/// Keeps files, and tells them.
///
/// Its fetches and places are counted together from 0, up to the last value of a 64-bit counter. A call fails exactly
/// where its number is one of those that were named at the start, or where it fetches a file longer than [`FILE_MAX`].
#[derive(Drop)]
pub struct MemShelf {
    table: Table,
    refused: Vec<u64>,
    number: u64,
    failures: u64,
    missed: u64,
}

impl Model for MemShelf {
    ghost use Rattle.evm_outside.specs.Cabinets.{Cabinet, cabinet_code};

    ghost Value = { Cabinet };

    ghost coded = { cabinet_code };

    ghost view = { λ s. record {
      files = s.table;
      failing = s.refused.items;
      calls = s.number;
      faults = s.failures;
      misses = s.missed;
    } };
}

/// The bytes under a name in memory of their own.
fn look_up(table: &Table, alloc: Global, name: &[u8]) -> Result<Vec<u8>, FetchError>
    ensures { Finds result (map.get table.now name.now) }
{
    match table.get(name) {
        None => Err(FetchError::Missing),
        Some(bytes) if bytes.len() > FILE_MAX => Err(FetchError::Failed),
        Some(bytes) => match Vec::from_slice(alloc, bytes) {
            Ok(copy) => Ok(copy),
            Err(_) => Err(FetchError::NoMemory),
        },
    }
}

impl MemShelf {
    /// A shelf without files. Its calls fail at the numbers of `failing`, counted from 0. Takes no memory.
    pub fn new(alloc: Global, failing: Vec<u64>) -> MemShelf
        ensures { result ≡ record { files = map.empty; failing = failing.items; calls = 0; faults = 0; misses = 0 } }
    {
        MemShelf {
            table: Table::new(alloc),
            refused: failing,
            number: 0,
            failures: 0,
            missed: 0,
        }
    }

    /// Sets a file, as a test needs it: no call is counted. Takes memory for the name and the bytes, and after
    /// [`NoMemory`] all is as before.
    pub fn put(&mut self, alloc: Global, name: &[u8], bytes: &[u8]) -> Result<(), NoMemory>
        ensures ok { OnOk result (self.new
            ≡ record self.old { files = map.insert self.old.files name.now bytes.now }) }
        ensures err { OnErr result (self.new ≡ self.old) }
    {
        self.table.set(alloc, name, bytes)
    }

    /// The bytes of a file, or `None` exactly where there is none of that name.
    pub fn get(&self, name: &[u8]) -> Option<&[u8]>
        ensures { option_map (λ bytes. bytes.now) result ≡ map.get self.now.files name.now }
    {
        self.table.get(name)
    }

    /// Counts a call, and answers whether it is to fail.
    fn count(&mut self) -> bool
        ensures fails { IsTrue result ↔ Contains self.old.failing self.old.calls }
        ensures after { self.new ≡ record self.old { calls = counted self.old.calls } }
    {
        let failed = self.refused.contains(&self.number);
        self.number = self.number.saturating_add(1);
        failed
    }

    /// Counts what a fetch answered.
    fn note(&mut self, fetched: &Result<Vec<u8>, FetchError>)
        ensures after { self.new ≡ cabinet_noted self.old fetched.now }
        ensures faults { FetchFaults fetched.now self.old.faults self.new.faults }
        ensures misses { FetchMisses fetched.now self.old.misses self.new.misses }
    {
        match fetched {
            Err(FetchError::Missing) => self.missed = self.missed.saturating_add(1),
            Err(FetchError::Failed) => self.failures = self.failures.saturating_add(1),
            _ => {}
        }
    }
}

impl Shelf for MemShelf {
    ghost files = { λ s. Some s.files };

    ghost faults = { λ s. s.faults };

    ghost misses = { λ s. s.misses };

    fn fetch(&mut self, alloc: Global, name: &[u8]) -> Result<Vec<u8>, FetchError>
        requires { is_file_name name.now ≡ true }
        ensures kept { KeepsFiles (Some self.old.files) (Some self.new.files) }
        ensures found { IfOk result
            (λ bytes. HasFile (Some self.old.files) name.now (Some bytes.items)) }
        ensures limit { IfOk result (λ bytes. vec_len bytes ≤ file_max) }
        ensures missing { IsErrOf result FetchError.Missing
            → HasFile (Some self.old.files) name.now None }
        ensures faults { FetchFaults result self.old.faults self.new.faults }
        ensures misses { FetchMisses result self.old.misses self.new.misses }
        // It fails where the number of the call says so, and else answers what is there.
        ensures answer { Fetches result self.old name.now }
        ensures after { self.new ≡ cabinet_fetched self.old result }
    {
        let failed = self.count();
        let fetched = if failed {
            Err(FetchError::Failed)
        } else {
            look_up(&self.table, alloc, name)
        };
        self.note(&fetched);
        fetched
    }

    fn place(&mut self, alloc: Global, name: &[u8], bytes: &[u8]) -> Result<(), PlaceError>
        requires { is_file_name name.now ≡ true }
        ensures placed { OnOk result (PlacesFile (Some self.old.files) (Some self.new.files) name.now bytes.now) }
        ensures err { OnErr result (KeepsFiles (Some self.old.files) (Some self.new.files)) }
        ensures faults { PlaceFaults result self.old.faults self.new.faults }
        ensures misses { self.new.misses ≡ self.old.misses }
        // It fails exactly where the number of the call says so.
        ensures fails { (result ≡ Err PlaceError.Failed)
            ↔ Contains self.old.failing self.old.calls }
        ensures after { self.new ≡ cabinet_placed self.old result name.now bytes.now }
    {
        if self.count() {
            self.failures = self.failures.saturating_add(1);
            return Err(PlaceError::Failed);
        }
        match self.table.set(alloc, name, bytes) {
            Ok(()) => Ok(()),
            Err(NoMemory) => Err(PlaceError::NoMemory),
        }
    }
}
