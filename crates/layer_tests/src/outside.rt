use std::alloc::Global;
use std::io::{ErrorKind, Write};
use std::test::Fail;
use std::{env, fs, io, process};
use sys_outside::{
    Fetched, FileShelf, MemShelf, MemSink, Shelf, ShelfError, Sink, SinkError, StreamSink,
    SureShelf, SureSink,
};

const NAME: &str = "letters";

// The bytes of a file of at most six bytes.
fn fetched<S: Shelf>(alloc: Global, shelf: &mut S, name: &str) -> Option<Vec<u8>> {
    let mut bytes = Vec::new(alloc);
    match shelf.fetch(name, 6, &mut bytes) {
        Ok(Fetched::Whole) => Some(bytes),
        Ok(Fetched::Longer) | Err(_) => None,
    }
}

fn puts<O: Sink>(sink: &mut O, piece: &[u8]) -> bool {
    sink.put(piece).is_ok()
}

fn one_file(alloc: Global) -> Result<Vec<(String, Vec<u8>)>, Fail> {
    let mut files = Vec::new(alloc);
    files.push((String::from_str(alloc, NAME)?, b"abcdef".to_vec(alloc)?))?;
    Ok(files)
}

#[test]
fn shelves_give_a_file(rt: HostRuntime) -> Result<(), Fail> {
    let alloc = rt.alloc();
    let mut memory = MemShelf::new(one_file(alloc)?, Vec::new(alloc));
    let mut sure = SureShelf::new(one_file(alloc)?);
    for file in [
        fetched(alloc, &mut memory, NAME),
        fetched(alloc, &mut sure, NAME),
    ] {
        assert_eq!(rt; file.ok_or("no file")?.as_slice(), b"abcdef".as_slice());
    }
    Ok(())
}

// More bytes than one read asks for, each of them telling its place.
fn many_bytes(alloc: Global) -> Result<Vec<u8>, Fail> {
    let mut bytes = Vec::new(alloc);
    for place in 0u32..10_000 {
        bytes.push((place % 251) as u8)?;
    }
    Ok(bytes)
}

#[test]
fn file_shelf_gives_real_files(rt: HostRuntime) -> Result<(), Fail> {
    let alloc = rt.alloc();
    let bytes = many_bytes(alloc)?;
    let path = format!(in alloc;
        "{}/sys_outside_{}",
        env::temp_dir(&rt)?.as_path().as_str(),
        process::id(rt.process())
    )?;
    fs::write(&rt, path.as_str(), bytes.as_slice())?;
    let mut shelf = FileShelf::new(&rt);
    let mut into = b"what stood there".to_vec(alloc)?;
    for (limit, wanted, count) in [
        (20_000usize, Fetched::Whole, 10_000usize),
        (10_000, Fetched::Whole, 10_000),
        (9_999, Fetched::Longer, 10_000),
        (5_000, Fetched::Longer, 5_001),
        (0, Fetched::Longer, 1),
    ] {
        let result = shelf.fetch(path.as_str(), limit, &mut into);
        assert_eq!(rt; result, Ok(wanted), "with limit {limit}");
        assert_eq!(rt;
            into.as_slice(),
            &bytes[..count.min(bytes.len())],
            "with limit {limit}"
        );
    }
    fs::remove_file(&rt, path.as_str())?;
    Ok(())
}

#[test]
fn file_shelf_fails_at_what_is_no_file(rt: HostRuntime) -> Result<(), Fail> {
    let alloc = rt.alloc();
    let folder = env::temp_dir(&rt)?;
    let missing = format!(in alloc; "{}/no file/has this name", folder.as_path().as_str())?;
    let mut shelf = FileShelf::new(&rt);
    for name in [missing.as_str(), folder.as_path().as_str(), ""] {
        let result = shelf.fetch(name, 6, &mut Vec::new(alloc));
        assert_eq!(rt; result, Err(ShelfError::Failed), "at {name}");
    }
    Ok(())
}

#[test]
fn sinks_take_a_piece(rt: HostRuntime) -> Result<(), Fail> {
    let alloc = rt.alloc();
    let mut memory = MemSink::new(alloc, Vec::new(alloc));
    let mut sure = SureSink::new(alloc);
    let mut written = Vec::new(alloc);
    assert!(rt; puts(&mut memory, b"abc"));
    assert!(rt; puts(&mut sure, b"abc"));
    assert!(rt; puts(&mut StreamSink::new(&mut written), b"abc"));
    assert_eq!(rt; memory.bytes(), b"abc".as_slice());
    assert_eq!(rt; sure.bytes(), b"abc".as_slice());
    assert_eq!(rt; written.as_slice(), b"abc".as_slice());
    Ok(())
}

#[test]
fn sink_takes_three_bytes_and_fails(rt: HostRuntime) -> Result<(), Fail> {
    let alloc = rt.alloc();
    let mut sink = MemSink::new(alloc, vec![in alloc; (0, 3)]?);
    assert!(rt; !puts(&mut sink, b"abcdef"));
    assert!(rt; puts(&mut sink, b"gh"));
    assert_eq!(rt; sink.bytes(), b"abcgh".as_slice());
    Ok(())
}

// A writer that takes at most so many bytes a call, of which one call may fail, and the flush.
#[derive(Drop)]
struct Narrow {
    most: usize,
    failing: Option<u32>,
    flushes: bool,
    calls: u32,
    taken: Vec<u8>,
}

impl Write for Narrow {
    fn write(&mut self, buf: &[u8]) -> io::Result<usize> {
        let call = self.calls;
        self.calls = call.saturating_add(1);
        if self.failing == Some(call) {
            return Err(io::Error::from(ErrorKind::OutOfMemory));
        }
        let count = buf.len().min(self.most);
        self.taken.extend_from_slice(&buf[..count])?;
        Ok(count)
    }

    fn flush(&mut self) -> io::Result<()> {
        if self.flushes {
            return Ok(());
        }
        Err(io::Error::from(ErrorKind::OutOfMemory))
    }
}

// Each row has what a put of seven bytes answers, and how often it wrote: after a failed write it writes no more.
#[test]
fn stream_sink_over_narrow_writers(rt: HostRuntime) -> Result<(), Fail> {
    let failed = Err(SinkError::Failed);
    let whole = b"abcdefg".as_slice();
    for (most, failing, flushes, wanted, calls, taken) in [
        (1usize, None, true, Ok(()), 7u32, whole),
        (2, None, true, Ok(()), 4, whole),
        (9, None, true, Ok(()), 1, whole),
        (0, None, true, failed, 1, b"".as_slice()),
        (2, Some(0u32), true, failed, 1, b"".as_slice()),
        (2, Some(2), true, failed, 3, b"abcd".as_slice()),
        (2, None, false, failed, 4, whole),
    ] {
        let mut writer = Narrow {
            most,
            failing,
            flushes,
            calls: 0,
            taken: Vec::new(rt.alloc()),
        };
        let result = StreamSink::new(&mut writer).put(whole);
        assert_eq!(rt; result, wanted, "{most} bytes a call");
        assert_eq!(rt; writer.calls, calls, "{most} bytes a call");
        assert_eq!(rt; writer.taken.as_slice(), taken, "{most} bytes a call");
    }
    Ok(())
}
