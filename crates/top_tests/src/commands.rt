use std::alloc::Global;
use std::test::Fail;
use sys_outside::{MemShelf, MemSink, SureShelf, SureSink};
use systole_top::{Status, systole};

fn words(alloc: Global, texts: &[&str]) -> Result<Vec<String>, Fail> {
    let mut words = Vec::new(alloc);
    for text in texts {
        words.push(String::from_str(alloc, text)?)?;
    }
    Ok(words)
}

#[test]
fn words_with_no_shape_are_usage(rt: HostRuntime) -> Result<(), Fail> {
    let alloc = rt.alloc();
    let lines: [&[&str]; 14] = [
        &[],
        &["check"],
        &["check", ""],
        &["explain", ""],
        &["run", "F"],
        &["compile"],
        &["compile", ""],
        &["compile", "F", "G"],
        &["check", "F", "G"],
        &["explain", "F", "G"],
        &["need"],
        &["mean", "F"],
        &["mean", "F", ""],
        &["mean", "", "IN"],
    ];
    for texts in lines {
        let mut shelf = SureShelf::new(Vec::new(alloc));
        let (mut out, mut err) = (SureSink::new(alloc), SureSink::new(alloc));
        let status = systole(alloc, &words(alloc, texts)?, &mut shelf, &mut out, &mut err);
        assert_eq!(rt; status, Status::Usage);
        assert_eq!(rt; out.bytes(), b"".as_slice());
        assert_eq!(rt; err.bytes(), b"usage: systole COMMAND WORDS\n".as_slice());
    }
    Ok(())
}

// Asks for a file that isn't there, over an `err` of which the first put may fail.
fn miss(
    alloc: Global,
    command: &str,
    failing: Vec<(u32, usize)>,
) -> Result<(Status, SureSink, MemSink), Fail> {
    let mut shelf = MemShelf::new(Vec::new(alloc), Vec::new(alloc));
    let (mut out, mut err) = (SureSink::new(alloc), MemSink::new(alloc, failing));
    let status = systole(
        alloc,
        &words(alloc, &[command, "G"])?,
        &mut shelf,
        &mut out,
        &mut err,
    );
    Ok((status, out, err))
}

#[test]
fn missing_file_is_a_read_fault(rt: HostRuntime) -> Result<(), Fail> {
    let alloc = rt.alloc();
    for command in ["check", "explain", "compile"] {
        let (status, out, err) = miss(alloc, command, Vec::new(alloc))?;
        assert_eq!(rt; status, Status::ReadFault);
        assert_eq!(rt; out.bytes(), b"".as_slice());
        assert_eq!(rt; err.bytes(), b"cannot read G\n".as_slice());
    }
    Ok(())
}

// A text is put in one piece, and nothing after a put that failed.
#[test]
fn failing_put_is_a_write_fault(rt: HostRuntime) -> Result<(), Fail> {
    let alloc = rt.alloc();
    for (count, taken) in [(0, ""), (4, "cann")] {
        let (status, out, err) = miss(alloc, "check", vec![in alloc; (0, count)]?)?;
        assert_eq!(rt; status, Status::WriteFault);
        assert_eq!(rt; out.bytes(), b"".as_slice());
        assert_eq!(rt; err.bytes(), taken.as_bytes());
    }
    Ok(())
}

const PIPE: &[u8] =
    b"array 1 x 2; queues 1; message A from 0.0 to 0.1; cell 0.0 { write A 7; } cell 0.1 { var x; read A x; emit x; }";

const CROSSED: &[u8] =
    b"array 1 x 2; queues 1; message A from 0.0 to 0.1; message B from 0.0 to 0.1; cell 0.0 { write A 1; write B 2; } cell 0.1 { var x; read B x; read A x; }";

const SHARED: &[u8] =
    b"array 1 x 2; queues 1; message A from 0.0 to 0.1; message B from 0.0 to 0.1; cell 0.0 { write A 1; write B 2; write A 3; } cell 0.1 { var x; read A x; read B x; read A x; }";

// Asks a command of a source, over an `out` of which the first put may fail.
fn ask(
    alloc: Global,
    command: &str,
    source: Vec<u8>,
    failing: Vec<(u32, usize)>,
) -> Result<(Status, MemSink, SureSink), Fail> {
    let mut files = Vec::new(alloc);
    files.push((String::from_str(alloc, "F")?, source))?;
    let mut shelf = SureShelf::new(files);
    let (mut out, mut err) = (MemSink::new(alloc, failing), SureSink::new(alloc));
    let words = words(alloc, &[command, "F"])?;
    let status = systole(alloc, &words, &mut shelf, &mut out, &mut err);
    Ok((status, out, err))
}

fn check(alloc: Global, source: Vec<u8>) -> Result<(Status, MemSink, SureSink), Fail> {
    ask(alloc, "check", source, Vec::new(alloc))
}

#[test]
fn sources_without_a_refusal_are_accepted(rt: HostRuntime) -> Result<(), Fail> {
    let alloc = rt.alloc();
    let table: [&[u8]; 4] = [
        PIPE,
        b"array 01 x 2;queues 1;# no cells",
        b"array 1 x 2; queues 1; link 0.0 E queues 2; message A from 0.0 to 0.1; message B from 0.0 to 0.1; cell 0.0 { write A 1; write B 2; write A 3; } cell 0.1 { var x; read A x; read B x; read A x; }",
        b"array 1 x 2; queues 1; message A from 0.0 to 0.1; message Z from 0.1 to 0.0; cell 0.0 { write A 7; } cell 0.1 { var x; read A x; emit x; }",
    ];
    for source in table {
        let (status, out, err) = check(alloc, source.to_vec(alloc)?)?;
        assert_eq!(rt; status, Status::Done);
        assert_eq!(rt; out.bytes(), b"accepted\n".as_slice());
        assert_eq!(rt; err.bytes(), b"".as_slice());
    }
    Ok(())
}

// Sources that are refused, each with its line.
const REFUSED: [(&[u8], &str); 6] = [
    (
        b"array 1 x 2;\nqueues queues;",
        "E02 line 2 column 8: not expected here\n",
    ),
    (
        b"array 1 x 2; queues 1;\ncell 0.0 { emit x; }",
        "E14 line 2: x is not declared\n",
    ),
    (CROSSED, "E30 crossing-off leaves 4 operations\n"),
    (SHARED, "E50 link 0.0E label 0 needs 2 queues and has 1\n"),
    (
        b"array 1 x 1; queues 1; cell 0.0 { for i 65535 { for j 65535 { } } }",
        "E60 the cells take more than 16777216 steps\n",
    ),
    (
        b"{{{{{{{{{{{{{{{{{{ @",
        "E01 byte at 19 is not part of the language\n",
    ),
];

#[test]
fn first_refusal_is_said(rt: HostRuntime) -> Result<(), Fail> {
    let alloc = rt.alloc();
    for (source, line) in REFUSED {
        let (status, out, err) = check(alloc, source.to_vec(alloc)?)?;
        assert_eq!(rt; status, Status::Refused);
        assert_eq!(rt; out.bytes(), b"".as_slice());
        assert_eq!(rt; err.bytes(), line.as_bytes());
    }
    Ok(())
}

#[test]
fn longest_source_is_read(rt: HostRuntime) -> Result<(), Fail> {
    let alloc = rt.alloc();
    let table = [
        (1_048_576, Status::Done, ""),
        (
            1_048_577,
            Status::Refused,
            "E05 the source has more than 1048576 bytes\n",
        ),
    ];
    for (size, wanted, on_err) in table {
        let mut source = PIPE.to_vec(alloc)?;
        source.resize(size, b' ')?;
        let (status, _, err) = check(alloc, source)?;
        assert_eq!(rt; status, wanted);
        assert_eq!(rt; err.bytes(), on_err.as_bytes());
    }
    Ok(())
}

#[test]
fn failing_put_takes_a_part_of_the_answer(rt: HostRuntime) -> Result<(), Fail> {
    let alloc = rt.alloc();
    for taken in [
        "", "a", "ac", "acc", "acce", "accep", "accept", "accepte", "accepted",
    ] {
        let failing = vec![in alloc; (0, taken.len())]?;
        let (status, out, err) = ask(alloc, "check", PIPE.to_vec(alloc)?, failing)?;
        assert_eq!(rt; status, Status::WriteFault);
        assert_eq!(rt; out.bytes(), taken.as_bytes());
        assert_eq!(rt; err.bytes(), b"".as_slice());
    }
    Ok(())
}

#[test]
fn accepted_source_needs_no_explanation(rt: HostRuntime) -> Result<(), Fail> {
    let alloc = rt.alloc();
    let (status, out, err) = ask(alloc, "explain", PIPE.to_vec(alloc)?, Vec::new(alloc))?;
    assert_eq!(rt; status, Status::Done);
    assert_eq!(rt; out.bytes(), b"accepted\n".as_slice());
    assert_eq!(rt; err.bytes(), b"".as_slice());
    Ok(())
}

// Sources that are refused, each with its explanation.
const EXPLAINED: [(&[u8], &str); 4] = [
    (b"@", "E01 byte at 0 is not part of the language\n"),
    (
        CROSSED,
        "E30 crossing-off leaves 4 operations\n0.0 waits to write A to 0.1\n0.1 waits to read B from 0.0\n0.0 again\n",
    ),
    (
        b"array 1 x 2; queues 1; message A from 0.0 to 0.1; cell 0.0 { write A 1; }",
        "E30 crossing-off leaves 1 operations\n0.0 waits to write A to 0.1\n0.1 has nothing left\n",
    ),
    (
        SHARED,
        "E50 link 0.0E label 0 needs 2 queues and has 1\ngroup A B\n",
    ),
];

#[test]
fn explanation_goes_to_out(rt: HostRuntime) -> Result<(), Fail> {
    let alloc = rt.alloc();
    for (source, text) in EXPLAINED {
        let (status, out, err) = ask(alloc, "explain", source.to_vec(alloc)?, Vec::new(alloc))?;
        assert_eq!(rt; status, Status::Refused);
        assert_eq!(rt; out.bytes(), text.as_bytes());
        assert_eq!(rt; err.bytes(), b"".as_slice());
    }
    Ok(())
}

#[test]
fn failing_put_takes_a_part_of_the_explanation(rt: HostRuntime) -> Result<(), Fail> {
    let alloc = rt.alloc();
    let failing = vec![in alloc; (0, 4)]?;
    let (status, out, err) = ask(alloc, "explain", b"@".to_vec(alloc)?, failing)?;
    assert_eq!(rt; status, Status::WriteFault);
    assert_eq!(rt; out.bytes(), b"E01 ".as_slice());
    assert_eq!(rt; err.bytes(), b"".as_slice());
    Ok(())
}

// What `compile F` says of a source.
fn compiled(alloc: Global, source: &[u8]) -> Result<(Status, SureSink, SureSink), Fail> {
    let mut files = Vec::new(alloc);
    files.push((
        String::from_str(alloc, "F")?,
        Vec::from_slice(alloc, source)?,
    ))?;
    let mut shelf = SureShelf::new(files);
    let (mut out, mut err) = (SureSink::new(alloc), SureSink::new(alloc));
    let status = systole(
        alloc,
        &words(alloc, &["compile", "F"])?,
        &mut shelf,
        &mut out,
        &mut err,
    );
    Ok((status, out, err))
}

#[test]
fn compiles_a_pipe(rt: HostRuntime) -> Result<(), Fail> {
    let (status, out, err) = compiled(
        rt.alloc(),
        b"array 1 x 2; queues 1; message A from 0.0 to 0.1; cell 0.0 { write A 7; } cell 0.1 { var x; read A x; emit x; }",
    )?;
    assert_eq!(rt; status, Status::Done);
    assert_eq!(rt;
        out.bytes(),
        b"systole 2\narray 1 x 2\nbuffer 0\nbound 6\n\
        message 0 from 0 to 1 length 1 label 0 route 1\nlink 1 queues 1 groups 0:0\n\
        cell 0 takes 0 emits 0 words 0 counters 0 stack 1\npush 7\nwrite 0\nhalt\n\
        cell 1 takes 0 emits 1 words 1 counters 0 stack 1\nread 0 0\nload 0\nemit\nhalt\nend\n"
            .as_slice()
    );
    assert_eq!(rt; err.bytes(), b"".as_slice());
    Ok(())
}

#[test]
fn refused_source_is_not_compiled(rt: HostRuntime) -> Result<(), Fail> {
    let (status, out, err) = compiled(rt.alloc(), b"@")?;
    assert_eq!(rt; status, Status::Refused);
    assert_eq!(rt; out.bytes(), b"".as_slice());
    assert_eq!(rt;
        err.bytes(),
        b"E01 byte at 0 is not part of the language\n".as_slice()
    );
    Ok(())
}
