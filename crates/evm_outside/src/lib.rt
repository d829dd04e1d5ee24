//! Where bytes come from and go to: traits that count their faults, fakes in memory, and adapters over std.
//!
//! The engine is generic over a [`Source`], a [`Sink`] and a [`Shelf`] of files, so that what it reads and writes can
//! be stated of any of them. [`MemSource`], [`MemSink`] and [`MemShelf`] tell all of their bytes and fail where they
//! are told to; [`StdSource`] and [`StdSink`] stand over a reader and a writer of std, and [`FolderShelf`] over the
//! current folder.
#![tactic(auto)]

mod adapters;
mod fakes;
mod folder;
mod mem_shelf;
mod shelf;
mod table;
#[cfg(test)]
mod tests;

ghost use Rattle.std.specs.Prelude.{List, ℕ};
ghost use Rattle.std.specs.Io.{ReadsAtMost};
ghost use Rattle.std.specs.Io.KnownBytes.{ReadConsumes, WriteAppends};
ghost use Rattle.std.specs.declared.option.Option.{Option};
ghost use Rattle.evm_outside.specs.Causes.{HasCause, TakesSome};

pub use adapters::{StdSink, StdSource};
pub use fakes::{MemSink, MemSource};
pub use folder::FolderShelf;
pub use mem_shelf::MemShelf;
pub use shelf::{FILE_MAX, FILE_NAME_MAX, FetchError, PlaceError, Shelf, is_file_name};

/// A device failed in this call, and its count of faults rose.
#[derive(Clone, Copy, Debug, PartialEq, Eq)]
pub struct Failed;

/// No memory was left.
#[derive(Clone, Copy, Debug, PartialEq, Eq)]
pub struct NoMemory;

/// Bytes that come, as from a file or a terminal.
pub trait Source {
    /// The bytes that are still to come, where they are known.
    ghost left: { Self → Option (List ℕ) };

    /// How many calls failed, up to the last value of a 64-bit counter.
    ghost faults: { Self → ℕ };

    /// Puts the next bytes at the front of `into` and answers how many.
    ///
    /// Known bytes to come lose those that were given. No byte is given only where `into` is empty or the
    /// end is reached. After [`Failed`] the bytes to come are as before, and the count of faults rose; else
    /// that count stays.
    fn read(&mut self, into: &mut [u8]) -> Result<usize, Failed>
        ensures bound { ReadsAtMost result into.new }
        ensures bytes { ReadConsumes (left self.old) (left self.new) result into.new }
        ensures cause { HasCause (faults self.old) (faults self.new) result };
}

/// Bytes that go, as to a file or a terminal.
pub trait Sink {
    /// The bytes that were written, where they are known.
    ghost written: { Self → Option (List ℕ) };

    /// How many calls failed, up to the last value of a 64-bit counter.
    ghost faults: { Self → ℕ };

    /// Takes bytes from the front of `piece` and answers how many: at least one where it is not empty.
    ///
    /// Known written bytes grow by those that were taken. After [`Failed`] they are as before, and the
    /// count of faults rose; else that count stays.
    fn write(&mut self, piece: &[u8]) -> Result<usize, Failed>
        ensures some { TakesSome result piece.now }
        ensures bytes { WriteAppends (written self.old) (written self.new) result piece.now }
        ensures cause { HasCause (faults self.old) (faults self.new) result };
}
