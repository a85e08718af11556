//! The text of a schedule.
use schedules::{ScheduleError, read_schedule, write_schedule};
use std::alloc::Global;
use std::test::Fail;
use sys_base::Actor;

/// How many entries a text has, and the text that is written of them.
fn written_again(alloc: Global, text: &[u8]) -> Result<(usize, Vec<u8>), Fail> {
    if text.len() > 1000 {
        return Err("too long".into());
    }
    let entries = read_schedule(alloc, text)?;
    Ok((entries.len(), write_schedule(alloc, entries.as_slice())?))
}

/// The line that a text is refused at, or 0 where it is read.
fn bad_line(alloc: Global, text: &[u8]) -> Result<u32, Fail> {
    if text.len() > 1000 {
        return Err("too long".into());
    }
    match read_schedule(alloc, text) {
        Ok(_) => Ok(0),
        Err(ScheduleError::BadLine { line }) => Ok(line),
        Err(ScheduleError::Memory) => Err("out of memory".into()),
    }
}

#[test]
fn records_read_back(rt: HostRuntime) -> Result<(), Fail> {
    let table: [(&[u8], usize); 3] = [
        (b"c0\nb1\nc0\nc1\nc1\nc1\n", 6),
        (b"c0\nb1\nc0\nc0\nc1\nc0\nc0\nc1\nb1\nc0\nc1\nc1\nc1\n", 13),
        (
            b"b5\nb1\nc2\nc0\nc0\nc0\nc0\nc0\nf0.0\nc2\nc2\nc2\nc2\nc0\nc0\nc0\nc0\nc0\nf0.0\n\
            c2\nc2\nc2\nc2\nc0\nc0\nc0\nc0\nc0\nf0.0\nc2\nc2\nc2\nc2\nc0\n",
            34,
        ),
    ];
    for (text, count) in table {
        let (found, again) = written_again(rt.alloc(), text)?;
        assert_eq!(rt; found, count, "{text:?}");
        assert_eq!(rt; again.as_slice(), text);
    }
    Ok(())
}

#[test]
fn tells_entries(rt: HostRuntime) -> Result<(), Fail> {
    let wanted = [Actor::Bind(5), Actor::Cell(65535), Actor::Forward(0, 1)];
    let found = read_schedule(rt.alloc(), b"b5\nc65535\nf0.1")?;
    assert!(rt; found.as_slice() == wanted.as_slice());
    Ok(())
}

#[test]
fn passes_over_a_result_line(rt: HostRuntime) -> Result<(), Fail> {
    let table: [(&[u8], usize); 4] = [
        (b"", 0),
        (b"{", 0),
        (b"{\"finished\":true}\n", 0),
        (b"{\"finished\":true}\nc0\nb1", 2),
    ];
    for (text, count) in table {
        let (found, _) = written_again(rt.alloc(), text)?;
        assert_eq!(rt; found, count, "{text:?}");
    }
    Ok(())
}

#[test]
fn first_line_is_malformed(rt: HostRuntime) -> Result<(), Fail> {
    let table: [&[u8]; 12] = [
        b"c65536", b"c00", b"\n", b"c0\r\n", b"c", b"f1", b"f1.", b"f.1", b"f1.2.3", b"C0", b" c0",
        b"c+1",
    ];
    for text in table {
        assert_eq!(rt; bad_line(rt.alloc(), text)?, 1, "{text:?}");
    }
    Ok(())
}

#[test]
fn second_line_is_malformed(rt: HostRuntime) -> Result<(), Fail> {
    let table: [&[u8]; 5] = [
        b"c0\nd1\n",
        b"c0\n\nb1\n",
        b"{\n\n",
        b"{}\n{}\n",
        b"c0\nf1\nc",
    ];
    for text in table {
        assert_eq!(rt; bad_line(rt.alloc(), text)?, 2, "{text:?}");
    }
    Ok(())
}
