//! The shelf over a folder, where opening fails, calls are short or interrupted, and files are long.

use super::super::folder::read_opened;
use super::super::{FetchError, FolderShelf, PlaceError, Shelf, Sink, Source, StdSink, StdSource};
use std::alloc::Allocator;
use std::fs::{File, Metadata, OpenFile, OpenOptions, Permissions};
use std::io::{ErrorKind, Read, Seek, SeekFrom, Write};
use std::rt::Files;
use std::test::Fail;
use std::{fs, io};

/// A file of the folder, or one of so many bytes that stand nowhere. Every other call is interrupted, and the next reads or
/// writes at most two bytes of a file of the folder.
#[derive(Drop)]
struct FakeFile {
    file: Option<File>,
    left: u64,
    interrupts: bool,
}

impl Read for FakeFile {
    fn read(&mut self, into: &mut [u8]) -> io::Result<usize> {
        self.interrupts = !self.interrupts;
        if self.interrupts {
            return Err(ErrorKind::Interrupted.into());
        }
        match &mut self.file {
            Some(file) => {
                let most = into.len().min(2);
                file.read(&mut into[..most])
            }
            None => {
                let count = self.left.min(into.len() as u64);
                self.left -= count;
                Ok(count as usize)
            }
        }
    }
}

impl Write for FakeFile {
    fn write(&mut self, piece: &[u8]) -> io::Result<usize> {
        self.interrupts = !self.interrupts;
        if self.interrupts {
            return Err(ErrorKind::Interrupted.into());
        }
        let most = piece.len().min(2);
        match &mut self.file {
            Some(file) => file.write(&piece[..most]),
            None => Ok(most),
        }
    }

    fn flush(&mut self) -> io::Result<()> {
        Ok(())
    }
}

impl Seek for FakeFile {
    fn seek(&mut self, _to: SeekFrom) -> io::Result<u64> {
        Err(ErrorKind::Unsupported.into())
    }
}

impl OpenFile for FakeFile {
    fn metadata(&self) -> io::Result<Metadata> {
        Err(ErrorKind::Unsupported.into())
    }

    fn set_len(&self, _size: u64) -> io::Result<()> {
        Err(ErrorKind::Unsupported.into())
    }

    fn sync_all(&self) -> io::Result<()> {
        match &self.file {
            Some(file) => file.sync_all(),
            None => Ok(()),
        }
    }

    fn sync_data(&self) -> io::Result<()> {
        Err(ErrorKind::Unsupported.into())
    }

    fn set_permissions(&self, permissions: Permissions) -> io::Result<()> {
        match &self.file {
            Some(file) => file.set_permissions(permissions),
            None => Ok(()),
        }
    }
}

/// What is answered where a file is looked for, opened or moved.
#[derive(Clone, Copy, PartialEq)]
enum Opening {
    /// Nothing, for this reason.
    Refused(ErrorKind),
    /// The file of the folder.
    Slow,
    /// The file of the folder, and moving it fails.
    Stuck,
    /// What stands there is no file, but opening it opens one.
    NoFile,
}

/// Files that open so, and do nothing else.
#[derive(Drop)]
struct FakeFiles<'a> {
    rt: &'a HostRuntime,
    opening: Opening,
}

impl Files for FakeFiles<'_> {
    type File = FakeFile;

    type Dir = FakeFile;

    fn open_file(&self, how: &OpenOptions, path: &str) -> io::Result<FakeFile> {
        let file = match self.opening {
            Opening::Refused(kind) => return Err(kind.into()),
            _ => how.open(self.rt, path)?,
        };
        Ok(FakeFile {
            file: Some(file),
            left: 0,
            interrupts: false,
        })
    }

    fn open_dir(&self, _path: &str) -> io::Result<FakeFile> {
        Err(ErrorKind::Unsupported.into())
    }

    fn metadata(&self, path: &str) -> io::Result<Metadata> {
        match self.opening {
            Opening::Refused(kind) => Err(kind.into()),
            Opening::NoFile => Ok(Metadata::of_symlink(0)),
            _ => fs::metadata(self.rt, path),
        }
    }

    fn symlink_metadata(&self, _path: &str) -> io::Result<Metadata> {
        Err(ErrorKind::Unsupported.into())
    }

    fn copy(&self, _from: &str, _to: &str) -> io::Result<u64> {
        Err(ErrorKind::Unsupported.into())
    }

    fn rename(&self, from: &str, to: &str) -> io::Result<()> {
        if self.opening == Opening::Stuck {
            return Err(ErrorKind::StorageFull.into());
        }
        fs::rename(self.rt, from, to)
    }

    fn remove_file(&self, path: &str) -> io::Result<()> {
        fs::remove_file(self.rt, path)
    }

    fn create_dir(&self, _path: &str) -> io::Result<()> {
        Err(ErrorKind::Unsupported.into())
    }

    fn remove_dir(&self, _path: &str) -> io::Result<()> {
        Err(ErrorKind::Unsupported.into())
    }

    fn remove_dir_all<B: Allocator>(&self, _alloc: B, _path: &str) -> io::Result<()> {
        Err(ErrorKind::Unsupported.into())
    }
}

/// A shelf over files that open so.
fn shelf_of(rt: &HostRuntime, opening: Opening) -> FolderShelf<FakeFiles<'_>> {
    FolderShelf::new(FakeFiles { rt, opening })
}

#[test]
fn a_file_is_missing_only_where_there_is_none(rt: HostRuntime) -> Result<(), Fail> {
    let alloc = rt.alloc();
    for (kind, why) in [
        (ErrorKind::NotFound, FetchError::Missing),
        (ErrorKind::PermissionDenied, FetchError::Failed),
        (ErrorKind::IsADirectory, FetchError::Failed),
        (ErrorKind::FilesystemLoop, FetchError::Failed),
    ] {
        let mut shelf = shelf_of(&rt, Opening::Refused(kind));
        assert_eq!(rt; shelf.fetch(alloc, b"a").err(), Some(why), "at {kind:?}");
        let placed = shelf.place(alloc, b"a", b"");
        assert_eq!(rt; placed, Err(PlaceError::Failed), "at {kind:?}");
    }
    let mut shelf = FolderShelf::new(&rt);
    fs::create_dir(&rt, "folder.sub")?;
    let bytes = shelf.fetch(alloc, b"folder.sub");
    let placed = shelf.place(alloc, b"folder.sub", b"");
    fs::remove_dir(&rt, "folder.sub")?;
    assert_eq!(rt; bytes.err(), Some(FetchError::Failed));
    assert_eq!(rt; placed, Err(PlaceError::Failed));
    Ok(())
}

#[test]
fn a_file_is_fetched_and_placed_whole(rt: HostRuntime) -> Result<(), Fail> {
    let alloc = rt.alloc();
    let mut slow = shelf_of(&rt, Opening::Slow);
    let mut shelf = FolderShelf::new(&rt);
    let none = shelf.fetch(alloc, b"folder.file");
    assert_eq!(rt; none.err(), Some(FetchError::Missing));
    for text in [b"first one".as_slice(), b"second"] {
        assert_eq!(rt; slow.place(alloc, b"folder.file", text), Ok(()));
        assert_eq!(rt; shelf.fetch(alloc, b"folder.file")?.as_slice(), text);
        assert_eq!(rt; slow.fetch(alloc, b"folder.file")?.as_slice(), text);
    }
    let mut stuck = shelf_of(&rt, Opening::Stuck);
    let placed = stuck.place(alloc, b"folder.file", b"third");
    assert_eq!(rt; placed, Err(PlaceError::Failed));
    assert_eq!(rt;
        shelf.fetch(alloc, b"folder.file")?.as_slice(),
        b"second".as_slice()
    );
    assert_eq!(rt; fs::exists(&rt, ".folder.file.part")?, false);
    fs::remove_file(&rt, "folder.file")?;
    // A file as long as a file may be, and one that is a byte longer, where the limit is a small one. The shelf's is `FILE_MAX`.
    for (left, len) in [(5, Some(5)), (6, None)] {
        let file = FakeFile {
            file: None,
            left,
            interrupts: false,
        };
        let bytes = read_opened(Ok(file), alloc, 5);
        assert_eq!(rt; bytes.ok().map(|bytes| bytes.len()), len, "at {left}");
    }
    Ok(())
}

#[test]
fn what_is_no_file_is_a_fault_and_not_opened(rt: HostRuntime) -> Result<(), Fail> {
    let alloc = rt.alloc();
    rt.symlink("/dev/null", "folder.null")?;
    let mut shelf = FolderShelf::new(&rt);
    let bytes = shelf.fetch(alloc, b"folder.null");
    let placed = shelf.place(alloc, b"folder.null", b"text");
    fs::remove_file(&rt, "folder.null")?;
    assert_eq!(rt; bytes.err(), Some(FetchError::Failed));
    assert_eq!(rt; placed, Err(PlaceError::Failed));
    let mut shelf = shelf_of(&rt, Opening::NoFile);
    let bytes = shelf.fetch(alloc, b"folder.none");
    let placed = shelf.place(alloc, b"folder.none", b"text");
    assert_eq!(rt; bytes.err(), Some(FetchError::Failed));
    assert_eq!(rt; placed, Err(PlaceError::Failed));
    assert_eq!(rt; fs::exists(&rt, "folder.none")?, false);
    Ok(())
}

#[test]
fn an_interrupted_call_is_no_fault(rt: HostRuntime) {
    let slow = || FakeFile {
        file: None,
        left: 3,
        interrupts: false,
    };
    let mut source = StdSource::new(slow());
    let mut into = [0u8; 2];
    for count in [2, 1, 0] {
        assert_eq!(rt; source.read(&mut into), Ok(count));
    }
    let mut sink = StdSink::new(slow());
    assert_eq!(rt; sink.write(b"abc"), Ok(2));
    assert_eq!(rt; sink.write(b"c"), Ok(1));
}
