use accept::{AcceptError, Built, NeedLine, accepted_or_refused, build, needs, one_first_refusal};
use cell_code::Image;
use comm_sequence::Comm::{self, Read, Write};
use refusals::{Refusal, text};
use std::alloc::{AllocGlobal, Global};
use std::process::Abort;
use std::test::Fail;

/// The first refusal of a text.
fn refusal(alloc: Global, source: &[u8]) -> Result<Refusal, Fail> {
    match build(alloc, source) {
        Ok(_) => Err("accepted".into()),
        Err(AcceptError::Memory) => Err("out of memory".into()),
        Err(AcceptError::Refused(refusal)) => Ok(refusal),
    }
}

/// What is made of a text that is accepted.
fn accepted(alloc: Global, source: &[u8]) -> Result<Built, Fail> {
    match build(alloc, source) {
        Ok(built) => Ok(built),
        Err(AcceptError::Memory) => Err("out of memory".into()),
        Err(AcceptError::Refused(_)) => Err("refused".into()),
    }
}

/// What the links of a text need.
fn needed(alloc: Global, source: &[u8]) -> Result<Vec<NeedLine>, Fail> {
    match needs(alloc, source) {
        Ok(lines) => Ok(lines),
        Err(AcceptError::Memory) => Err("out of memory".into()),
        Err(AcceptError::Refused(_)) => Err("refused".into()),
    }
}

/// Whether the messages of an image have these labels.
fn are_labels(image: &Image, labels: &[u16]) -> bool {
    let messages = image.messages.iter();
    image.messages.len() == labels.len()
        && messages
            .zip(labels)
            .all(|(message, label)| message.label == *label)
}

/// The text is refused with this line.
fn expect<R: Abort + AllocGlobal>(rt: &R, source: &[u8], line: &str) -> Result<(), Fail> {
    let found = text(rt.alloc(), &refusal(rt.alloc(), source)?)?;
    assert_eq!(rt; found.as_slice(), line.as_bytes());
    Ok(())
}

/// A source of one cell whose cost is one more than the limit allows where `last` has a unary minus.
fn costly(alloc: Global, last: &[u8]) -> Result<Vec<u8>, Fail> {
    let mut source = Vec::new(alloc);
    source.extend_from_slice(b"array 1 x 1; queues 1; cell 0.0 { var x; for i 65535 { ")?;
    for _ in 0..126 {
        source.extend_from_slice(b"x = 0; ")?;
    }
    source.extend_from_slice(b"x = -x; } ")?;
    for _ in 0..125 {
        source.extend_from_slice(b"x = 0; ")?;
    }
    source.extend_from_slice(last)?;
    source.extend_from_slice(b" x = -x; }")?;
    Ok(source)
}

#[test]
fn accepts_programs(rt: HostRuntime) -> Result<(), Fail> {
    one_first_refusal();
    accepted_or_refused();
    let rows: [(&[u8], &[u16], u32); 8] = [
        (b"array 1 x 1; queues 1;", &[], 0),
        (b"array 1 x 1; queues 1; buffer 3;", &[], 0),
        (b"array 16 x 16; queues 32;", &[], 0),
        (
            b"array 1 x 2; queues 1; message A from 0.0 to 0.1; message Z from 0.1 to 0.0;\n\
            cell 0.0 { write A 7; } cell 0.1 { var x; read A x; emit x; }",
            &[0, 1],
            6,
        ),
        (
            b"array 1 x 2; queues 1; message A from 0.0 to 0.1; message B from 0.0 to 0.1;\n\
            cell 0.0 { write A 1; write A 2; write B 3; } cell 0.1 { var x; read A x; read A x; read B x; emit x; }",
            &[0, 1],
            13,
        ),
        (
            b"array 1 x 3; queues 1; message A from 0.0 to 0.2;\n\
            cell 0.0 { for i 3 { write A i + 1; } } cell 0.2 { var x; for i 3 { read A x; emit x; } }",
            &[0],
            34,
        ),
        (
            b"array 1 x 3; queues 2;\n\
            message X0 from 0.0 to 0.1; message Y0 from 0.0 to 0.1;\n\
            message X1 from 0.1 to 0.2; message Y1 from 0.1 to 0.2;\n\
            cell 0.0 { var x; for i 4 { take x; write Y0 1 * x; write X0 x; } }\n\
            cell 0.1 { var x; var y; var old;\n\
            for i 4 { read Y0 y; read X0 x; write Y1 y + 2 * old; write X1 old; old = x; } }\n\
            cell 0.2 { var x; var y; var old; for i 4 { read Y1 y; read X1 x; emit y + 3 * old; old = x; } }",
            &[0, 0, 0, 0],
            133,
        ),
        (
            b"array 16 x 16; queues 1; message A from 0.0 to 15.15;\n\
            cell 0.0 { for i 65535 { write A 1; write A 1; } }\n\
            cell 15.15 { var x; for i 65535 { read A x; read A x; } }",
            &[0],
            4325342,
        ),
    ];
    for (source, labels, bound) in rows {
        let built = accepted(rt.alloc(), source)?;
        assert!(rt; are_labels(&built.image, labels));
        assert_eq!(rt; built.image.bound, bound);
    }
    Ok(())
}

#[test]
fn crosses_operations_off_in_order(rt: HostRuntime) -> Result<(), Fail> {
    let rows: [(&[u8], &[Comm]); 4] = [
        (
            b"array 1 x 2; queues 1; message A from 0.0 to 0.1; cell 0.0 { write A 7; } cell 0.1 { var x; read A x; emit x; }",
            &[Write(0), Read(0)],
        ),
        (
            b"array 1 x 2; queues 1; message A from 0.0 to 0.1;\n\
            cell 0.0 { if 1 { for i 2 { write A 1; } } else { write A 2; write A 3; } }\n\
            cell 0.1 { var x; for i 2 { read A x; emit x; } }",
            &[Write(0), Read(0), Write(0), Read(0)],
        ),
        (
            b"array 1 x 2; queues 1; link 0.0 E queues 2; message A from 0.0 to 0.1; message B from 0.0 to 0.1;\n\
            cell 0.0 { write A 1; write B 2; write A 3; } cell 0.1 { var x; read A x; read B x; read A x; }",
            &[Write(0), Read(0), Write(1), Read(1), Write(0), Read(0)],
        ),
        (
            b"array 1 x 2; queues 2; buffer 2; message A from 0.0 to 0.1; message B from 0.0 to 0.1;\n\
            cell 0.0 { write A 1; write A 2; write B 3; } cell 0.1 { var x; read B x; read A x; read A x; }",
            &[Write(0), Write(0), Write(1), Read(1), Read(0), Read(0)],
        ),
    ];
    for (source, order) in rows {
        let built = accepted(rt.alloc(), source)?;
        assert_eq!(rt; built.order.as_slice(), order);
    }
    Ok(())
}

#[test]
fn refuses_at_the_limits(rt: HostRuntime) -> Result<(), Fail> {
    let alloc = rt.alloc();
    let spaces = vec![in alloc; b' '; 1_048_577]?;
    expect(&rt, &spaces, "E05 the source has more than 1048576 bytes")?;
    expect(
        &rt,
        &[b'-'; 257],
        "E06 line 1: more than 256 tokens without ; { or }",
    )?;
    expect(&rt, &[b'{'; 18], "E07 line 1: more than 17 braces are open")?;
    let dear = costly(alloc, b"x = -x;")?;
    expect(&rt, &dear, "E60 the cells take more than 16777216 steps")?;
    accepted(alloc, &costly(alloc, b"x = 0;")?)?;
    Ok(())
}

#[test]
fn refuses_wrong_sources(rt: HostRuntime) -> Result<(), Fail> {
    let rows: [(&[u8], &str); 25] = [
        (b"@", "E01 byte at 0 is not part of the language"),
        (b"", "E02 line 1 column 1: not expected here"),
        (
            b"array 1 x 9223372036854775808;",
            "E03 line 1: the number is more than 9223372036854775807",
        ),
        (
            b"array\nabcdefghijklmnopqrstuvwxyz_012345",
            "E04 line 2: the name has more than 32 bytes",
        ),
        (b"array 0 x 16; queues 1;", "E10 line 1: rows are 1 to 16"),
        (b"array 17 x 17; queues 1;", "E10 line 1: rows are 1 to 16"),
        (
            b"array 16 x 0; queues 1;",
            "E10 line 1: columns are 1 to 16",
        ),
        (
            b"array 16 x 17; queues 1;",
            "E10 line 1: columns are 1 to 16",
        ),
        (b"array 1 x 1; queues 0;", "E10 line 1: queues are 1 to 32"),
        (b"array 1 x 1; queues 33;", "E10 line 1: queues are 1 to 32"),
        (
            b"array 1 x 1; queues 1;\nbuffer 65;",
            "E10 line 2: the buffer is 0 to 64",
        ),
        (
            b"array 1 x 2; queues 1; message A from 0.0 to 0.1; message A from 0.0 to 0.1;",
            "E11 line 1: A stands twice",
        ),
        (
            b"array 1 x 2; queues 1; link 0.1 W queues 1; link 0.1 W queues 1;",
            "E11 line 1: 0.1W stands twice",
        ),
        (
            b"array 2 x 2; queues 1; cell 1.0 { } cell 1.0 { }",
            "E11 line 1: 1.0 stands twice",
        ),
        (
            b"array 1 x 2; queues 1; message A from 0.0 to 1.0;",
            "E12 line 1: outside the grid",
        ),
        (
            b"array 1 x 2; queues 1; message A from 0.0 to 0.0;",
            "E13 line 1: A goes to its own sender",
        ),
        (
            b"array 1 x 2; queues 1; message A from 0.0 to 0.1; cell 0.0 { write B 7; }",
            "E14 line 1: B is not declared",
        ),
        (
            b"array 1 x 1; queues 1;\ncell 0.0 { if 1 { emit 1; } else { } }",
            "E15 line 2: the arms communicate differently",
        ),
        (
            b"array 1 x 2; queues 1; message A from 0.0 to 0.1;\n\
            cell 0.0 { write A 7; } cell 0.1 { var x; read A x; emit x; write A 1; }",
            "E16 line 2: cell 0.1 does not send A",
        ),
        (
            b"array 1 x 1; queues 1; cell 0.0 { for i 2 { i = 1; } }",
            "E17 line 1: i is a counter",
        ),
        (
            b"array 1 x 2; queues 1; message A from 0.0 to 0.1 route E E;",
            "E18 line 1: the route of A leaves the grid",
        ),
        (
            b"array 1 x 2; queues 1; message A from 0.0 to 0.1 route E W;",
            "E19 line 1: the route of A does not end at its receiver",
        ),
        (
            b"array 1 x 2; queues 1; message A from 0.0 to 0.1 route E W E;",
            "E20 line 1: the route of A uses link 0.0E twice",
        ),
        (
            b"array 1 x 2; queues 2; buffer 1; message A from 0.0 to 0.1; message B from 0.0 to 0.1;\n\
            cell 0.0 { write A 1; write A 2; write B 3; } cell 0.1 { var x; read B x; read A x; read A x; }",
            "E30 crossing-off leaves 5 operations",
        ),
        (
            b"array 16 x 16; queues 1; message A from 0.0 to 15.15;\n\
            cell 0.0 { for i 65535 {\n\
            write A 1; write A 1; write A 1; write A 1; write A 1; write A 1; write A 1; write A 1; } }\n\
            cell 15.15 { var x; for i 65535 {\n\
            read A x; read A x; read A x; read A x; read A x; read A x; read A x; read A x; } }",
            "E61 the bound 16908062 is more than 16777216",
        ),
    ];
    for (source, line) in rows {
        expect(&rt, source, line)?;
    }
    Ok(())
}

#[test]
fn says_what_links_need(rt: HostRuntime) -> Result<(), Fail> {
    let alloc = rt.alloc();
    let lines = needed(
        alloc,
        b"array 1 x 2; queues 1; message A from 0.0 to 0.1; message B from 0.0 to 0.1;\n\
        cell 0.0 { write A 1; write B 2; write A 3; } cell 0.1 { var x; read A x; read B x; read A x; }",
    )?;
    assert_eq!(rt; lines.len(), 1);
    for line in &lines {
        let printed = format!(in alloc; "{line}")?;
        assert_eq!(rt; printed.as_str(), "link 0.0E need 2 has 1");
    }
    let many = needed(
        alloc,
        b"array 16 x 16; queues 1; message A from 0.0 to 15.15;\n\
        cell 0.0 { for i 65535 {\n\
        write A 1; write A 1; write A 1; write A 1; write A 1; write A 1; write A 1; write A 1; } }\n\
        cell 15.15 { var x; for i 65535 {\n\
        read A x; read A x; read A x; read A x; read A x; read A x; read A x; read A x; } }",
    )?;
    assert_eq!(rt; many.len(), 30);
    for line in &many {
        assert_eq!(rt; (line.need, line.has), (1, 1));
    }
    Ok(())
}

/// A source of this number of messages from the cell 0.0 to the cell 0.1, each with this label.
fn declared(alloc: Global, count: u64, label: u64) -> Result<Vec<u8>, Fail> {
    let mut source = Vec::from_slice(alloc, b"array 1 x 2; queues 32;")?;
    for number in 0..count {
        let line = format!(in alloc; " message m{number} from 0.0 to 0.1 label {label};")?;
        source.extend_from_slice(line.as_bytes())?;
    }
    Ok(source)
}

#[test]
fn counts_messages_and_labels(rt: HostRuntime) -> Result<(), Fail> {
    let alloc = rt.alloc();
    let most = accepted(alloc, &declared(alloc, 512, 65535)?)?;
    assert_eq!(rt; most.image.messages.len(), 512);
    expect(
        &rt,
        &declared(alloc, 513, 65535)?,
        "E10 line 1: messages are at most 512",
    )?;
    expect(
        &rt,
        &declared(alloc, 1, 65536)?,
        "E10 line 1: labels are 0 to 65535",
    )
}

/// Two messages from one cell to the next, with what these texts say of their labels: the second stands between two words of
/// the first where `shared`, and otherwise after them.
fn pair(alloc: Global, first: &str, second: &str, shared: bool) -> Result<Vec<u8>, Fail> {
    let mut source = Vec::from_slice(alloc, b"array 1 x 2; queues 1; message A from 0.0 to 0.1")?;
    source.extend_from_slice(first.as_bytes())?;
    source.extend_from_slice(b"; message B from 0.0 to 0.1")?;
    source.extend_from_slice(second.as_bytes())?;
    let cells: &[u8] = if shared {
        b"; cell 0.0 { write A 1; write B 2; write A 3; } cell 0.1 { var x; read A x; read B x; read A x; }"
    } else {
        b"; cell 0.0 { write A 1; write A 2; write B 3; } cell 0.1 { var x; read A x; read A x; read B x; }"
    };
    source.extend_from_slice(cells)?;
    Ok(source)
}

#[test]
fn refuses_wrong_labels_and_too_few_queues(rt: HostRuntime) -> Result<(), Fail> {
    let rows = [
        (
            "",
            "",
            true,
            "E50 link 0.0E label 0 needs 2 queues and has 1",
        ),
        (
            " label 7",
            " label 7",
            true,
            "E50 link 0.0E label 7 needs 2 queues and has 1",
        ),
        (
            " label 0",
            " label 0",
            false,
            "E50 link 0.0E label 0 needs 2 queues and has 1",
        ),
        (
            " label 0",
            "",
            true,
            "E41 B has no label and another message has one",
        ),
        (
            "",
            " label 0",
            true,
            "E41 A has no label and another message has one",
        ),
        (
            " label 0",
            " label 1",
            true,
            "E40 cell 0.0 at 2: A with label 0 follows B with label 1",
        ),
        (
            " label 2",
            " label 1",
            false,
            "E40 cell 0.0 at 2: B with label 1 follows A with label 2",
        ),
    ];
    for (first, second, shared, line) in rows {
        expect(&rt, &pair(rt.alloc(), first, second, shared)?, line)?;
    }
    Ok(())
}
