use std::alloc::Global;
use std::test::Fail;
use sys_outside::{SureShelf, SureSink};
use systole_top::{Status, systole};

// Asks a command of a source, and of an input where the command takes one.
fn ask(
    alloc: Global,
    words: &[&str],
    source: &[u8],
    input: &[u8],
) -> Result<(Status, SureSink, SureSink), Fail> {
    let mut texts = Vec::new(alloc);
    for word in words {
        texts.push(String::from_str(alloc, word)?)?;
    }
    let mut files = Vec::new(alloc);
    files.push((String::from_str(alloc, "F")?, source.to_vec(alloc)?))?;
    files.push((String::from_str(alloc, "IN")?, input.to_vec(alloc)?))?;
    let mut shelf = SureShelf::new(files);
    let (mut out, mut err) = (SureSink::new(alloc), SureSink::new(alloc));
    let status = systole(alloc, &texts, &mut shelf, &mut out, &mut err);
    Ok((status, out, err))
}

const CROSSED: &[u8] =
    b"array 1 x 2; queues 1; message A from 0.0 to 0.1; message B from 0.0 to 0.1; cell 0.0 { write A 1; write B 2; } cell 0.1 { var x; read B x; read A x; }";

const FILTER: &[u8] = b"array 1 x 3; queues 2;\n\
    message X0 from 0.0 to 0.1; message Y0 from 0.0 to 0.1;\n\
    message X1 from 0.1 to 0.2; message Y1 from 0.1 to 0.2;\n\
    cell 0.0 { var x; for i 4 { take x; write Y0 1 * x; write X0 x; } }\n\
    cell 0.1 { var x; var y; var old; for i 4 { read Y0 y; read X0 x; write Y1 y + 2 * old; write X1 old; old = x; } }\n\
    cell 0.2 { var x; var y; var old; for i 4 { read Y1 y; read X1 x; emit y + 3 * old; old = x; } }\n";

// Sources, each with what its links need.
const NEEDS: [(&[u8], &str); 4] = [
    (
        b"array 1 x 2; queues 1; message A from 0.0 to 0.1; message B from 0.0 to 0.1; cell 0.0 { write A 1; write B 2; write A 3; } cell 0.1 { var x; read A x; read B x; read A x; }",
        "link 0.0E need 2 has 1\n",
    ),
    (
        b"array 1 x 2; queues 1; message A from 0.0 to 0.1; message B from 0.0 to 0.1; cell 0.0 { write A 1; write A 2; write B 3; } cell 0.1 { var x; read A x; read A x; read B x; emit x; }",
        "link 0.0E need 1 has 1\n",
    ),
    (FILTER, "link 0.0E need 2 has 2\nlink 0.1E need 2 has 2\n"),
    (b"array 1 x 1; queues 1;", ""),
];

#[test]
fn links_need_their_largest_groups(rt: HostRuntime) -> Result<(), Fail> {
    for (source, text) in NEEDS {
        let (status, out, err) = ask(rt.alloc(), &["need", "F"], source, b"")?;
        assert_eq!(rt; status, Status::Done);
        assert_eq!(rt; out.bytes(), text.as_bytes());
        assert_eq!(rt; err.bytes(), b"".as_slice());
    }
    Ok(())
}

// Sources, each with an input and with what it means for it.
const MEANINGS: [(&[u8], &[u8], &str); 3] = [
    (
        b"array 1 x 2; queues 1; message A from 0.0 to 0.1;\n\
        cell 0.0 {\n\
        if 1 / 0 { write A 5; } else { write A 6; }\n\
        write A 7;\n\
        }\n\
        cell 0.1 { var x; for i 2 { read A x; emit x; } }",
        b"{}",
        "{\"outputs\":{\"0.1\":[\"!Z@0:3\",\"!Z@0:3\"]}}\n",
    ),
    (
        b"array 1 x 1; queues 1;\n\
        cell 0.0 {\n\
        var a[2];\n\
        emit (-9223372036854775807 - 1) / -1;\n\
        emit a[2];\n\
        emit a[1] + 4;\n\
        a[2] = 1;\n\
        emit 3;\n\
        }",
        b"{}",
        "{\"outputs\":{\"0.0\":[\"!O@0:4\",\"!X@0:5\",4,\"!X@0:7\"]}}\n",
    ),
    (
        FILTER,
        b"{\"0.0\":[1,0,0,0]}",
        "{\"outputs\":{\"0.2\":[1,2,3,0]}}\n",
    ),
];

#[test]
fn sources_mean_what_their_cells_emit(rt: HostRuntime) -> Result<(), Fail> {
    for (source, input, text) in MEANINGS {
        let (status, out, err) = ask(rt.alloc(), &["mean", "F", "IN"], source, input)?;
        assert_eq!(rt; status, Status::Done);
        assert_eq!(rt; out.bytes(), text.as_bytes());
        assert_eq!(rt; err.bytes(), b"".as_slice());
    }
    Ok(())
}

// Inputs of the filter, each with the rule that it breaks first.
const BROKEN: [(&[u8], &str); 7] = [
    (
        b"{\"0.0\":[1,0,0]}",
        "input: cell 0.0 needs 4 words and has 3\n",
    ),
    (
        b"{\"0.0\":[1,0,0,0,0]}",
        "input: cell 0.0 needs 4 words and has 5\n",
    ),
    (b"{\"0.0\":[1,0.5,0,0]}", "input: 0.0 at 1 is no integer\n"),
    (b"{\"1.0\":[]}", "input: 1.0 is not a cell\n"),
    (b"{\"0.0\":1}", "input: 0.0 is not a list\n"),
    (b"[]", "input: not an object\n"),
    (b"", "input: not JSON\n"),
];

#[test]
fn first_broken_rule_is_said(rt: HostRuntime) -> Result<(), Fail> {
    for (input, line) in BROKEN {
        let (status, out, err) = ask(rt.alloc(), &["mean", "F", "IN"], FILTER, input)?;
        assert_eq!(rt; status, Status::BadInput);
        assert_eq!(rt; out.bytes(), b"".as_slice());
        assert_eq!(rt; err.bytes(), line.as_bytes());
    }
    Ok(())
}

#[test]
fn stalls_are_refused_before_needs_and_meanings(rt: HostRuntime) -> Result<(), Fail> {
    let commands: [&[&str]; 2] = [&["need", "F"], &["mean", "F", "G"]];
    for words in commands {
        let (status, out, err) = ask(rt.alloc(), words, CROSSED, b"")?;
        assert_eq!(rt; status, Status::Refused);
        assert_eq!(rt; out.bytes(), b"".as_slice());
        assert_eq!(rt;
            err.bytes(),
            b"E30 crossing-off leaves 4 operations\n".as_slice()
        );
    }
    Ok(())
}
