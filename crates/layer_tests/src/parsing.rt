use cell_lexer::tokens;
use cell_parser::{ParseError, parse};
use cell_tree::print;
use std::alloc::Global;
use std::test::Fail;

/// Each form of declaration and of statement, in canonical form.
#[test]
fn prints_canonical_text_as_it_stands(rt: HostRuntime) -> Result<(), Fail> {
    let text = b"array 1 x 2;
queues 1;
buffer 3;
link 0.0 E queues 2;
message A from 0.0 to 0.1 route S E N label 9;
message B from 0.0 to 0.1;
cell 0.0 {
  var x;
  var a[4];
  for i 3 {
    a[i + 1] = -(x * 2) % 7;
    if x <= i {
      write A (1 - x) / a[0];
    } else {
      take x;
    }
    if 1 {
    } else {
    }
  }
}
cell 0.1 {
  var y;
  read A y;
  emit y == 3;
}
";
    let found = tokens(rt.alloc(), text)?;
    let source = parse(rt.alloc(), text, &found)?;
    assert_eq!(rt; source.queues_line, 2);
    assert_eq!(rt; source.buffer, 3);
    assert_eq!(rt; source.buffer_line, 3);
    let printed = print(rt.alloc(), &source)?;
    assert_eq!(rt; printed.as_slice(), text.as_slice());
    Ok(())
}

/// A source of one cell, in which this expression stands between these texts.
fn emission(alloc: Global, before: &[u8], expr: &str, after: &[u8]) -> Result<Vec<u8>, Fail> {
    let mut text = b"array 1 x 1;\nqueues 1;\ncell 0.0 {\n".to_vec(alloc)?;
    text.extend_from_slice(before)?;
    text.extend_from_slice(expr.as_bytes())?;
    text.extend_from_slice(after)?;
    Ok(text)
}

/// The canonical text of the source that emits this expression, where it is short.
fn reprinted(alloc: Global, expr: &str) -> Result<Vec<u8>, Fail> {
    let text = emission(alloc, b"emit ", expr, b";}")?;
    if text.len() > 1000 {
        return Err("too long".into());
    }
    let found = tokens(alloc, &text)?;
    let source = parse(alloc, &text, &found)?;
    Ok(print(alloc, &source)?)
}

/// An operator on each side of an operator, at each pair of levels, and what binds tighter on each side of each operator.
#[test]
fn prints_parentheses_just_where_they_are_needed(rt: HostRuntime) -> Result<(), Fail> {
    let table = [
        ["(1 <= 2) < 3", "1 < (2 <= 3)", "-1 <= a[2]", "a[2] < -x"],
        ["1 + 2 == 3", "1 == 2 + 3", "-1 == a[2]", "a[2] == -x"],
        ["1 % 2 != 3", "1 != 2 % 3", "-1 != a[2]", "a[2] != -x"],
        ["(1 == 2) + 3", "1 + (2 == 3)", "-1 + a[2]", "a[2] + -x"],
        ["1 - 2 - 3", "1 - (2 - 3)", "-1 - a[2]", "a[2] - -x"],
        ["1 / 2 + 3", "1 + 2 / 3", "-1 < a[2]", "a[2] <= -x"],
        ["(1 < 2) * 3", "1 * (2 < 3)", "-1 * a[2]", "a[2] * -x"],
        ["(1 + 2) / 3", "1 / (2 + 3)", "-1 / a[2]", "a[2] / -x"],
        ["1 * 2 % 3", "1 % (2 * 3)", "-1 % a[2]", "a[2] % -x"],
        ["-1", "-x", "-a[1 + 2]", "-1 * -0"],
        [
            "-(-1)",
            "-(1 * 2)",
            "a[(1 < 2) + 3]",
            "(1 + 2) * -(3 - x) - 4 % 5",
        ],
    ];
    for row in table {
        for expr in row {
            let wanted = emission(rt.alloc(), b"  emit ", expr, b";\n}\n")?;
            let printed = reprinted(rt.alloc(), expr)?;
            assert_eq!(rt; printed.as_slice(), wanted.as_slice());
        }
    }
    Ok(())
}

#[test]
fn prints_other_text_in_canonical_form(rt: HostRuntime) -> Result<(), Fail> {
    let table = [
        ("(1+2)*-(3-x)-4%5", "(1 + 2) * -(3 - x) - 4 % 5"),
        ("((1)) +\n(2*3) # six\n", "1 + 2 * 3"),
    ];
    for (expr, canonical) in table {
        let wanted = emission(rt.alloc(), b"  emit ", canonical, b";\n}\n")?;
        let printed = reprinted(rt.alloc(), expr)?;
        assert_eq!(rt; printed.as_slice(), wanted.as_slice());
    }
    Ok(())
}

/// The line of a buffer of 0 is read, and not printed.
#[test]
fn prints_a_buffer_where_it_is_not_0(rt: HostRuntime) -> Result<(), Fail> {
    let table: [(&[u8], &[u8]); 3] = [
        (
            b"array 1 x 2; queues 1;\nbuffer 9223372036854775807; link 0.0 E queues 2;",
            b"array 1 x 2;\nqueues 1;\nbuffer 9223372036854775807;\nlink 0.0 E queues 2;\n",
        ),
        (
            b"array 1 x 2; queues 1; buffer 0;",
            b"array 1 x 2;\nqueues 1;\n",
        ),
        (b"array 1 x 2; queues 1;", b"array 1 x 2;\nqueues 1;\n"),
    ];
    for (text, wanted) in table {
        assert!(rt; text.len() < 100);
        let found = tokens(rt.alloc(), text)?;
        let source = parse(rt.alloc(), text, &found)?;
        let printed = print(rt.alloc(), &source)?;
        assert_eq!(rt; printed.as_slice(), wanted);
    }
    Ok(())
}

#[test]
fn refuses_the_first_wrong_token(rt: HostRuntime) -> Result<(), Fail> {
    let table: [(&[u8], ParseError); 12] = [
        (b"", ParseError::Unexpected { line: 1, column: 1 }),
        (
            b"array 1 x 1; queues 1; cell 0.0 { emit",
            ParseError::Unexpected {
                line: 1,
                column: 39,
            },
        ),
        (
            b"array 1 x 2; queues 1; message A from 0.0 to 0.1; cell 0.0 { write A",
            ParseError::Unexpected {
                line: 1,
                column: 69,
            },
        ),
        (
            b"array 1 y 2;",
            ParseError::Unexpected { line: 1, column: 9 },
        ),
        (
            b"array 1 x 2;\nqueues 1",
            ParseError::Unexpected { line: 2, column: 9 },
        ),
        (
            b"array 1 x 1; buffer 3; queues 1;",
            ParseError::Unexpected {
                line: 1,
                column: 14,
            },
        ),
        (
            b"array 1 x 1; queues 1; buffer 3;\nbuffer 3;",
            ParseError::Unexpected { line: 2, column: 1 },
        ),
        (
            b"array 1 x 1; queues 1;\nbuffer ;",
            ParseError::Unexpected { line: 2, column: 8 },
        ),
        (
            b"array 1 x 2;\nqueues 1;\ncell 0.0 { x = ; }",
            ParseError::Unexpected {
                line: 3,
                column: 16,
            },
        ),
        (
            b"array 1 x 2; queues 1; cell 0.0 { emit x; var x; }",
            ParseError::Unexpected {
                line: 1,
                column: 43,
            },
        ),
        (
            b"array 1 x 2; queues 1; cell 0.0 { emit 1 < 2 < 3; }",
            ParseError::Unexpected {
                line: 1,
                column: 46,
            },
        ),
        (b"{\n{{{{{{{{{{{{{{{{\n{", ParseError::Braces { line: 3 }),
    ];
    for (text, wanted) in table {
        assert!(rt; text.len() < 100);
        let found = tokens(rt.alloc(), text)?;
        assert_eq!(rt;
            parse(rt.alloc(), text, &found).err(),
            Some(wanted),
            "{text:?}"
        );
    }
    Ok(())
}

#[test]
fn refuses_the_257th_token_of_a_piece(rt: HostRuntime) -> Result<(), Fail> {
    let mut text = vec![in rt.alloc(); b'%'; 256]?;
    let found = tokens(rt.alloc(), text.as_slice())?;
    let wanted = ParseError::Unexpected { line: 1, column: 1 };
    assert_eq!(rt;
        parse(rt.alloc(), text.as_slice(), &found).err(),
        Some(wanted)
    );
    text.push(b'%')?;
    let found = tokens(rt.alloc(), text.as_slice())?;
    let wanted = ParseError::LongPiece { line: 1 };
    assert_eq!(rt;
        parse(rt.alloc(), text.as_slice(), &found).err(),
        Some(wanted)
    );
    Ok(())
}

/// A source that emits a number in so many parentheses.
fn parenthesized(alloc: Global, depth: usize) -> Result<Vec<u8>, Fail> {
    let mut text = b"array 1 x 1; queues 1; cell 0.0 { emit ".to_vec(alloc)?;
    for _ in 0..depth {
        text.push(b'(')?;
    }
    text.push(b'1')?;
    for _ in 0..depth {
        text.push(b')')?;
    }
    text.extend_from_slice(b"; }")?;
    Ok(text)
}

#[test]
fn reads_127_parentheses(rt: HostRuntime) -> Result<(), Fail> {
    for (depth, wanted) in [(127, None), (128, Some(ParseError::LongPiece { line: 1 }))] {
        let text = parenthesized(rt.alloc(), depth)?;
        assert!(rt; text.len() < 1000);
        let found = tokens(rt.alloc(), text.as_slice())?;
        assert_eq!(rt; parse(rt.alloc(), text.as_slice(), &found).err(), wanted);
    }
    Ok(())
}

#[test]
fn refuses_the_longest_text_of_parentheses(rt: HostRuntime) -> Result<(), Fail> {
    let text = vec![in rt.alloc(); b'('; 1_048_576]?;
    let found = tokens(rt.alloc(), text.as_slice())?;
    let wanted = ParseError::LongPiece { line: 1 };
    assert_eq!(rt;
        parse(rt.alloc(), text.as_slice(), &found).err(),
        Some(wanted)
    );
    Ok(())
}
