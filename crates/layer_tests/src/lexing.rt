use cell_lexer::{Key, LexError, Mark, Position, Sort, Token, end_of, tokens};
use std::test::Fail;

const NAME: Sort = Sort::Name;

#[test]
fn reads_each_form(rt: HostRuntime) -> Result<(), Fail> {
    let table: [(&[u8], &[Sort]); 16] = [
        (b"", &[]),
        (b" \t\r\n# all", &[]),
        (b"a _ Z9 iff x", &[NAME, NAME, NAME, NAME, NAME]),
        (b"abcdefghijklmnopqrstuvwxyz_01234", &[NAME]),
        (b"if buffer", &[Sort::Key(Key::If), Sort::Key(Key::Buffer)]),
        (b"a# c\nb#d", &[NAME, NAME]),
        (
            b"0 9223372036854775807",
            &[Sort::Number(0), Sort::Number(9223372036854775807)],
        ),
        (
            b"0009223372036854775807",
            &[Sort::Number(9223372036854775807)],
        ),
        (b"12ab", &[Sort::Number(12), NAME]),
        (
            b"1.2",
            &[Sort::Number(1), Sort::Mark(Mark::Dot), Sort::Number(2)],
        ),
        (b"a.b", &[NAME, Sort::Mark(Mark::Dot), NAME]),
        (
            b"<==",
            &[Sort::Mark(Mark::AtMost), Sort::Mark(Mark::Assign)],
        ),
        (
            b"!==",
            &[Sort::Mark(Mark::Differ), Sort::Mark(Mark::Assign)],
        ),
        (
            b"===< ",
            &[
                Sort::Mark(Mark::Same),
                Sort::Mark(Mark::Assign),
                Sort::Mark(Mark::Less),
            ],
        ),
        (
            b"{}[]();",
            &[
                Sort::Mark(Mark::OpenBrace),
                Sort::Mark(Mark::CloseBrace),
                Sort::Mark(Mark::OpenBracket),
                Sort::Mark(Mark::CloseBracket),
                Sort::Mark(Mark::OpenParen),
                Sort::Mark(Mark::CloseParen),
                Sort::Mark(Mark::Semicolon),
            ],
        ),
        (
            b"+-*/%",
            &[
                Sort::Mark(Mark::Plus),
                Sort::Mark(Mark::Minus),
                Sort::Mark(Mark::Star),
                Sort::Mark(Mark::Slash),
                Sort::Mark(Mark::Percent),
            ],
        ),
    ];
    for (text, wanted) in table {
        assert!(rt; text.len() < 100);
        let found = tokens(rt.alloc(), text)?;
        assert_eq!(rt; found.len(), wanted.len(), "{text:?}");
        for (token, sort) in found.iter().zip(wanted) {
            assert_eq!(rt; token.sort, *sort, "{text:?}");
        }
    }
    Ok(())
}

#[test]
fn refuses_the_first_fault(rt: HostRuntime) -> Result<(), Fail> {
    let table: [(&[u8], LexError); 8] = [
        (b"a = !b", LexError::BadByte { at: 4 }),
        (b"# \xff\n\xff", LexError::BadByte { at: 4 }),
        (b"a\0", LexError::BadByte { at: 1 }),
        (b"9223372036854775808 $", LexError::BigNumber { line: 1 }),
        (
            b"\r\n#\r\n00018446744073709551617",
            LexError::BigNumber { line: 3 },
        ),
        (
            b"\nabcdefghijklmnopqrstuvwxyz_012345",
            LexError::LongName { line: 2 },
        ),
        (b"$ 9223372036854775808", LexError::BadByte { at: 0 }),
        (
            b"9bufferbufferbufferbufferbufferbuffer",
            LexError::LongName { line: 1 },
        ),
    ];
    for (text, wanted) in table {
        assert!(rt; text.len() < 100);
        assert_eq!(rt; tokens(rt.alloc(), text).err(), Some(wanted), "{text:?}");
    }
    Ok(())
}

#[test]
fn tells_places(rt: HostRuntime) -> Result<(), Fail> {
    let text = b"a\r\n\tbc # x\n  12ab";
    let wanted = [
        Token {
            sort: NAME,
            at: 0,
            len: 1,
            line: 1,
            column: 1,
        },
        Token {
            sort: NAME,
            at: 4,
            len: 2,
            line: 2,
            column: 2,
        },
        Token {
            sort: Sort::Number(12),
            at: 13,
            len: 2,
            line: 3,
            column: 3,
        },
        Token {
            sort: NAME,
            at: 15,
            len: 2,
            line: 3,
            column: 5,
        },
    ];
    let found = tokens(rt.alloc(), text)?;
    assert_eq!(rt; found.as_slice(), wanted.as_slice());
    assert_eq!(rt; end_of(text), Position { line: 3, column: 7 });
    assert_eq!(rt; end_of(b"a\n"), Position { line: 2, column: 1 });
    Ok(())
}

#[test]
fn counts_the_value_and_not_the_digits(rt: HostRuntime) -> Result<(), Fail> {
    let mut text = vec![in rt.alloc(); b'0'; 1000]?;
    text.push(b'7')?;
    let found = tokens(rt.alloc(), text.as_slice())?;
    assert_eq!(rt; found.len(), 1);
    assert_eq!(rt; found[0].sort, Sort::Number(7));
    assert_eq!(rt; found[0].len, 1001);
    Ok(())
}
