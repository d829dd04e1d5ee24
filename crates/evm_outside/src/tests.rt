//! Each fake and each adapter where all goes well, and at a call that fails.

mod folder;

use super::{
    Failed, FetchError, MemShelf, MemSink, MemSource, PlaceError, Shelf, Sink, Source, StdSink,
    StdSource, is_file_name,
};
use std::io;
use std::test::Fail;

#[test]
fn a_source_in_memory_gives_pieces_and_fails_at_its_number(rt: HostRuntime) -> Result<(), Fail> {
    let alloc = rt.alloc();
    let bytes = vec![in alloc; 7u8, 8, 9]?;
    let mut source = MemSource::new(bytes, 2, vec![in alloc; 1u64]?);
    let mut into = [0u8; 4];
    assert_eq!(rt; source.read(&mut into), Ok(2));
    assert_eq!(rt; into, [7, 8, 0, 0]);
    assert_eq!(rt; source.read(&mut into), Err(Failed));
    assert_eq!(rt; source.read(&mut into), Ok(1));
    assert_eq!(rt; into, [9, 8, 0, 0]);
    assert_eq!(rt; source.read(&mut into), Ok(0));
    Ok(())
}

#[test]
fn a_sink_in_memory_keeps_what_fits_and_fails_without_room(rt: HostRuntime) -> Result<(), Fail> {
    let alloc = rt.alloc();
    let mut sink = MemSink::new(alloc, 3, vec![in alloc; 0u64]?)?;
    assert_eq!(rt; sink.write(b"ab"), Err(Failed));
    assert_eq!(rt; sink.write(b"ab"), Ok(2));
    assert_eq!(rt; sink.write(b"cd"), Ok(1));
    assert_eq!(rt; sink.write(b"d"), Err(Failed));
    assert_eq!(rt; sink.write(b""), Ok(0));
    assert_eq!(rt; sink.bytes(), b"abc".as_slice());
    Ok(())
}

#[test]
fn a_reader_of_std_is_a_source(rt: HostRuntime) {
    let text: &[u8] = b"abc";
    let mut source = StdSource::new(text);
    let mut into = [0u8; 2];
    assert_eq!(rt; source.read(&mut into), Ok(2));
    assert_eq!(rt; into, [97, 98]);
    assert_eq!(rt; source.read(&mut into), Ok(1));
    assert_eq!(rt; source.read(&mut into), Ok(0));
}

#[test]
fn a_writer_of_std_is_a_sink(rt: HostRuntime) {
    let mut sink = StdSink::new(Vec::new(rt.alloc()));
    assert_eq!(rt; sink.write(b"ab"), Ok(2));
    assert_eq!(rt; sink.write(b"c"), Ok(1));
    assert_eq!(rt; sink.writer().as_slice(), b"abc".as_slice());
}

/// A writer that takes all it is given, but whose flush fails.
#[derive(Drop)]
struct Stuck;

impl io::Write for Stuck {
    fn write(&mut self, piece: &[u8]) -> io::Result<usize> {
        Ok(piece.len())
    }

    fn flush(&mut self) -> io::Result<()> {
        Err(io::ErrorKind::Other.into())
    }
}

#[test]
fn a_failed_flush_is_a_fault(rt: HostRuntime) {
    let mut sink = StdSink::new(Stuck);
    assert_eq!(rt; sink.write(b"ab"), Err(Failed));
}

#[test]
fn a_shelf_in_memory_keeps_files_and_fails_at_its_number(rt: HostRuntime) -> Result<(), Fail> {
    let alloc = rt.alloc();
    let mut shelf = MemShelf::new(alloc, vec![in alloc; 1u64, 4]?);
    shelf.put(alloc, b"a.evm", b"first")?;
    assert_eq!(rt;
        shelf.fetch(alloc, b"a.evm")?.as_slice(),
        b"first".as_slice()
    );
    assert_eq!(rt;
        shelf.place(alloc, b"a.evm", b"second"),
        Err(PlaceError::Failed)
    );
    assert_eq!(rt; shelf.get(b"a.evm"), Some(b"first".as_slice()));
    assert_eq!(rt; shelf.place(alloc, b"a.evm", b"second"), Ok(()));
    assert_eq!(rt; shelf.place(alloc, b"_b-1", b""), Ok(()));
    assert_eq!(rt;
        shelf.fetch(alloc, b"a.evm").err(),
        Some(FetchError::Failed)
    );
    assert_eq!(rt; shelf.fetch(alloc, b"c").err(), Some(FetchError::Missing));
    assert_eq!(rt;
        shelf.fetch(alloc, b"a.evm")?.as_slice(),
        b"second".as_slice()
    );
    assert_eq!(rt; shelf.get(b"_b-1"), Some(b"".as_slice()));
    assert_eq!(rt; shelf.get(b"c"), None);
    Ok(())
}

#[test]
fn a_file_name_is_never_a_path(rt: HostRuntime) {
    for (name, want) in [
        (b"a".as_slice(), true),
        (b"_A-z.09", true),
        (b"", false),
        (b".a", false),
        (b"-a", false),
        (b"a/b", false),
        (b"a b", false),
    ] {
        assert_eq!(rt; is_file_name(name), want);
    }
    assert_eq!(rt; is_file_name(&[b'x'; 64]), true);
    assert_eq!(rt; is_file_name(&[b'x'; 65]), false);
}
