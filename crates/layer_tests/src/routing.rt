use routes::{RouteError, route_of};
use std::test::Fail;
use sys_base::{Dir, Grid};

#[test]
fn walks_routes(rt: HostRuntime) -> Result<(), Fail> {
    let grid = Grid::new(2, 3).ok_or("no grid")?;
    let table: [(u16, u16, &[Dir], &[u16]); 5] = [
        (0, 5, &[], &[1, 5, 10]),
        (5, 0, &[], &[23, 19, 12]),
        (2, 1, &[], &[11]),
        (4, 1, &[], &[16]),
        (0, 1, &[Dir::S, Dir::E, Dir::N], &[2, 13, 16]),
    ];
    for (from, to, given, wanted) in table {
        let links = route_of(rt.alloc(), &grid, from, to, given)?;
        assert_eq!(rt; links.as_slice(), wanted);
    }
    Ok(())
}

#[test]
fn walks_across_the_largest_grid(rt: HostRuntime) -> Result<(), Fail> {
    let grid = Grid::new(16, 16).ok_or("no grid")?;
    let links = route_of(rt.alloc(), &grid, 0, 255, &[])?;
    assert_eq!(rt; links.len(), 30);
    assert_eq!(rt; links.first(), Some(&1));
    assert_eq!(rt; links.last(), Some(&958));
    Ok(())
}

#[test]
fn refuses_the_first_fault(rt: HostRuntime) -> Result<(), Fail> {
    let grid = Grid::new(1, 2).ok_or("no grid")?;
    let table: [(&[Dir], RouteError); 4] = [
        (&[Dir::E, Dir::E], RouteError::LeavesGrid),
        (&[Dir::E, Dir::W], RouteError::WrongEnd),
        (&[Dir::E, Dir::W, Dir::E], RouteError::LinkTwice { link: 1 }),
        (
            &[Dir::E, Dir::W, Dir::E, Dir::N],
            RouteError::LinkTwice { link: 1 },
        ),
    ];
    for (given, wanted) in table {
        let error = route_of(rt.alloc(), &grid, 0, 1, given).err();
        assert_eq!(rt; error, Some(wanted));
    }
    Ok(())
}
