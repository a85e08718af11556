use cell_lexer::tokens;
use cell_parser::parse;
use cell_types::resolve;
use std::test::Fail;

/// A grid of one cell without a program.
#[test]
fn one_idle_cell(rt: HostRuntime) -> Result<(), Fail> {
    let text = b"array 1 x 1; queues 1; buffer 64;";
    let found = tokens(rt.alloc(), text)?;
    let program = resolve(rt.alloc(), parse(rt.alloc(), text, &found)?)?;
    assert_eq!(rt; program.grid().cells(), 1);
    assert_eq!(rt; program.queues(), [0, 0, 0, 0].as_slice());
    assert_eq!(rt; program.messages().len(), 0);
    assert_eq!(rt; program.cells().len(), 1);
    assert_eq!(rt; program.buffer(), 64);
    Ok(())
}
