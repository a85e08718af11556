use std::test::Fail;
use sys_base::{Dir, Grid, Items, Name};

#[test]
fn names(rt: HostRuntime) -> Result<(), Fail> {
    let table = [
        ("A", true),
        ("_x1", true),
        ("N", true),
        ("abcdefghijklmnopqrstuvwxyz012345", true),
        ("abcdefghijklmnopqrstuvwxyz0123456", false),
        ("", false),
        ("1a", false),
        ("a.b", false),
        ("buffer", false),
        ("buffers", true),
    ];
    for (text, is_name) in table {
        let name = Name::new(rt.alloc(), text.as_bytes()).ok().ok_or("memory")?;
        assert_eq!(rt; name.is_some(), is_name, "{text}");
        if let Some(name) = name {
            let copy = name.copy().ok().ok_or("memory")?;
            assert_eq!(rt; copy.bytes(), text.as_bytes());
        }
    }
    Ok(())
}

#[test]
fn links(rt: HostRuntime) -> Result<(), Fail> {
    let grid = Grid::new(1, 3).ok_or("no grid")?;
    assert_eq!(rt; grid.cells(), 3);
    assert_eq!(rt; grid.cell(0, 2), Some(2));
    assert_eq!(rt; grid.link(1, Dir::E).ok_or("no link")?, 5);
    assert_eq!(rt; grid.neighbour(1, Dir::S), None);
    let (cell, link) = (grid.cell_name(2), grid.link_name(5));
    let names = format!(in rt.alloc(); "{cell} {link}")?;
    assert_eq!(rt; names.as_str(), "0.2 0.1E");
    Ok(())
}

#[test]
fn lists(rt: HostRuntime) -> Result<(), Fail> {
    let mut list = Items::from_slice(rt.alloc(), &[3, 1]).ok().ok_or("memory")?;
    list.push(2_u16).ok().ok_or("memory")?;
    assert_eq!(rt; list.len(), 3);
    assert_eq!(rt; list.as_slice(), [3, 1, 2].as_slice());
    let again = Items::from_vec(list.into_vec());
    assert_eq!(rt; again.as_slice(), [3, 1, 2].as_slice());
    let none: Items<u16> = Items::new(rt.alloc());
    assert_eq!(rt; none.len(), 0);
    Ok(())
}
