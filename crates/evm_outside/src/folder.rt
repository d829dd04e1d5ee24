//! A shelf over the current folder.

ghost use Rattle.std.specs.Prelude.{◌≡◌, ◌↔◌, ◌≤◌, ◌⊎◌, ◌≢◌, bit_and, vec_len, Err, Some, IsOk, IfOk, IfSome, IsErrAnd, IsOkAnd, IsTrue};
ghost use Rattle.std.specs.Fs.{IsFile, file_type, metadata_mode};
ghost use Rattle.std.specs.IoError.{error_kind};
ghost use Rattle.std.specs.declared.option.Option.TheVariants.{None};
ghost use Rattle.evm_outside.specs.Shelves.{file_max};
ghost use Rattle.evm_outside.specs.Adapters.{files_of_folder, folder_faults, folder_misses, GivesWhole};

use super::{FILE_MAX, FetchError, PlaceError, Shelf};
use std::alloc::Global;
use std::fs::{Metadata, OpenFile, OpenOptions, Permissions};
use std::io::{ErrorKind, Read, Write};
use std::rt::Files;
use std::{fs, io, str};

/// Reads and writes regular files of the current folder.
///
/// It does not tell them: what a folder holds, nobody knows. A file is read whole and at once. It is written beside the old one,
/// brought to the disk and only then put in its place, so that a write that fails leaves what was there. A pipe, a device or
/// a folder under the name is a fault at once: it is not opened, so nothing waits for it. A call that a signal interrupts is
/// tried again.
#[derive(Drop)]
pub struct FolderShelf<R> {
    rt: R,
    faults: u64,
    misses: u64,
}

impl<R: Files + Drop> FolderShelf<R> {
    /// A shelf over the current folder of this runtime, of which no call has failed. Takes no memory.
    pub fn new(rt: R) -> FolderShelf<R>
        ensures { (files_of_folder result ≡ rt) × (folder_faults result ≡ 0)
            × (folder_misses result ≡ 0) }
    {
        FolderShelf {
            rt,
            faults: 0,
            misses: 0,
        }
    }
}

/// The bytes of a file that was opened, or why it was not. A folder opens, but gives no bytes, and so has failed.
pub(crate) fn read_opened<F: Read + Drop>(
    opened: io::Result<F>,
    alloc: Global,
    limit: usize,
) -> Result<Vec<u8>, FetchError>
    requires { limit ≤ file_max }
    ensures limit { IfOk result (λ bytes. vec_len bytes ≤ limit) }
    // All bytes that the file has, and not a front of them.
    ensures whole { GivesWhole F.remaining opened result }
    // A file is missing exactly where the cause says that there is none.
    ensures missing { (result ≡ Err FetchError.Missing) ↔ IsErrAnd opened
        (λ e. error_kind e ≡ ErrorKind.NotFound) }
{
    let file = match opened {
        Ok(file) => file,
        Err(error) if error.kind() == ErrorKind::NotFound => return Err(FetchError::Missing),
        Err(_) => return Err(FetchError::Failed),
    };
    let mut bytes = Vec::new(alloc);
    match file.take(limit as u64 + 1).read_to_end(&mut bytes) {
        Ok(_) if bytes.len() <= limit => Ok(bytes),
        Err(error) if error.kind() == ErrorKind::OutOfMemory => Err(FetchError::NoMemory),
        _ => Err(FetchError::Failed),
    }
}

/// Whether a regular file stands there, which opening never waits for.
pub(crate) fn must_be_file(found: &io::Result<Metadata>) -> Result<(), FetchError>
    ensures file { IsOk result ↔ IsOkAnd found.now (λ there. IsFile (file_type there)) }
    ensures missing { (result ≡ Err FetchError.Missing) ↔ IsErrAnd found.now
        (λ e. error_kind e ≡ ErrorKind.NotFound) }
{
    match found {
        Ok(there) if there.is_file() => Ok(()),
        Err(error) if error.kind() == ErrorKind::NotFound => Err(FetchError::Missing),
        _ => Err(FetchError::Failed),
    }
}

/// Whether a file may be put there: nothing stands there, or a regular file that may be written.
pub(crate) fn may_be_replaced(found: &io::Result<Metadata>) -> bool
    ensures { IsTrue result ↔ (IsErrAnd found.now (λ e. error_kind e ≡ ErrorKind.NotFound)
        ⊎ IsOkAnd found.now (λ there. IsFile (file_type there) × (bit_and (metadata_mode there) 0o222 ≢ 0))) }
{
    match found {
        Ok(there) => there.is_file() && !there.permissions().readonly(),
        Err(error) => error.kind() == ErrorKind::NotFound,
    }
}

/// The bytes of a regular file, at most [`FILE_MAX`].
fn read_file<R: Files>(rt: &R, alloc: Global, name: &[u8]) -> Result<Vec<u8>, FetchError>
    ensures { IfOk result (λ bytes. vec_len bytes ≤ file_max) }
{
    let Ok(path) = str::from_utf8(name) else {
        return Err(FetchError::Failed);
    };
    must_be_file(&fs::metadata(rt, path))?;
    read_opened(fs::open(rt, path), alloc, FILE_MAX)
}

/// Makes a new file with these bytes and permissions, and brings it to the disk.
///
/// What closing a file could still refuse, as a full disk, it is asked before: closing itself tells nothing.
fn write_new<R: Files>(
    rt: &R,
    path: &str,
    bytes: &[u8],
    permissions: Option<Permissions>,
) -> io::Result<()> {
    let mut options = OpenOptions::new();
    options.write(true).create_new(true);
    let mut file = options.open(rt, path)?;
    file.write_all(bytes)?;
    if let Some(permissions) = permissions {
        file.set_permissions(permissions)?;
    }
    file.sync_all()
}

/// Writes a file beside the place where it belongs, under a name that is no file name, and moves it there.
fn write_beside<R: Files>(rt: &R, path: &str, beside: &str, bytes: &[u8]) -> io::Result<()> {
    let found = fs::metadata(rt, path);
    if !may_be_replaced(&found) {
        return Err(ErrorKind::AlreadyExists.into());
    }
    // What a program that was ended in the middle of this may have left.
    let _ = fs::remove_file(rt, beside);
    let permissions = found.ok().map(|there| there.permissions());
    let moved = match write_new(rt, beside, bytes, permissions) {
        Ok(()) => fs::rename(rt, beside, path),
        Err(error) => Err(error),
    };
    if moved.is_err() {
        let _ = fs::remove_file(rt, beside);
    }
    moved
}

/// Puts these bytes under a name.
fn write_file<R: Files>(
    rt: &R,
    alloc: Global,
    name: &[u8],
    bytes: &[u8],
) -> Result<(), PlaceError> {
    let Ok(path) = str::from_utf8(name) else {
        return Err(PlaceError::Failed);
    };
    let Ok(beside) = format!(in alloc; ".{path}.part") else {
        return Err(PlaceError::NoMemory);
    };
    match write_beside(rt, path, beside.as_str(), bytes) {
        Ok(()) => Ok(()),
        Err(_) => Err(PlaceError::Failed),
    }
}

impl<R: Files + Drop> Shelf for FolderShelf<R> {
    ghost files = { λ _. None };

    ghost faults = { folder_faults };

    ghost misses = { folder_misses };

    fn fetch(&mut self, alloc: Global, name: &[u8]) -> Result<Vec<u8>, FetchError> {
        let fetched = read_file(&self.rt, alloc, name);
        match fetched {
            Err(FetchError::Missing) => self.misses = self.misses.saturating_add(1),
            Err(FetchError::Failed) => self.faults = self.faults.saturating_add(1),
            _ => {}
        }
        fetched
    }

    fn place(&mut self, alloc: Global, name: &[u8], bytes: &[u8]) -> Result<(), PlaceError> {
        let placed = write_file(&self.rt, alloc, name, bytes);
        if let Err(PlaceError::Failed) = placed {
            self.faults = self.faults.saturating_add(1);
        }
        placed
    }
}
