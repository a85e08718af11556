//! The lines of results and meanings.
ghost use Rattle.std.specs.Prelude.{◌<◌, ◌*◌, All, IsTrue};
ghost use Rattle.sys_base.specs.Grid.{cell_count};

use std::alloc::Global;
use std::test::Fail;
use stream_io::{Report, meaning_text, result_text};
use sys_base::{Actor, Fault, Grid, Items, Kind, Memory, Outputs, Word};

/// The lists of so many cells, all empty but the last, which has these words.
fn outputs(alloc: Global, cells: u16, words: &[Word]) -> Result<Outputs, Memory> {
    let mut lists = Items::new(alloc);
    for _ in 1..cells {
        lists.push(Items::new(alloc))?;
    }
    lists.push(Items::from_slice(alloc, words)?)?;
    Ok(Outputs { cells: lists })
}

/// How many words each of so many cells is to emit: so many the last, and none the others.
fn emits(alloc: Global, cells: u16, last: u32) -> Result<Items<u32>, Memory> {
    let mut emits = Items::new(alloc);
    for _ in 1..cells {
        emits.push(0)?;
    }
    emits.push(last)?;
    Ok(emits)
}

/// Whether these are at most two peaks, each of a link of the grid.
fn few_peaks(grid: &Grid, peaks: &[(u16, u32)]) -> bool
    ensures { IsTrue result → All (λ peak. peak.0 < 4 * cell_count grid.now) peaks.now }
{
    let links = 4 * grid.cells();
    match peaks {
        [] => true,
        [one] => one.0 < links,
        [one, other] => one.0 < links && other.0 < links,
        _ => false,
    }
}

/// The result line of a run in a row of cells.
fn result(alloc: Global, cells: u16, report: &Report) -> Result<Vec<u8>, Fail> {
    let grid = Grid::new(1, u64::from(cells)).ok_or("no grid")?;
    let count = usize::from(grid.cells());
    if report.outputs.cells.len() != count || report.emits.len() != count {
        return Err("not of the grid".into());
    }
    if !few_peaks(&grid, report.peaks.as_slice()) {
        return Err("no such links".into());
    }
    Ok(result_text(alloc, &grid, report)?)
}

/// The result line of a run in a row of cells, which is finished where no actor is next. The last cell alone emits.
fn line(
    alloc: Global,
    cells: u16,
    words: &[Word],
    peaks: &[(u16, u32)],
    next: Option<Actor>,
    steps: u32,
) -> Result<Vec<u8>, Fail> {
    let report = Report {
        finished: next.is_none(),
        next,
        outputs: outputs(alloc, cells, words)?,
        emits: emits(alloc, cells, 1)?,
        peaks: Items::from_slice(alloc, peaks)?,
        steps,
    };
    result(alloc, cells, &report)
}

/// The fault of a kind in the first cell.
fn fault(kind: Kind, line: u32) -> Word {
    Word::Fault(Fault {
        kind,
        cell: 0,
        line,
    })
}

#[test]
fn finished_runs(rt: HostRuntime) -> Result<(), Fail> {
    let table: [(u16, &[Word], &[(u16, u32)], u32, &str); 3] = [
        (
            2,
            &[Word::Num(7)],
            &[(1, 1)],
            6,
            "{\"finished\":true,\"outputs\":{\"0.1\":[7]},\"peaks\":{\"0.0E\":1},\"steps\":6}\n",
        ),
        (
            2,
            &[Word::Num(3)],
            &[(1, 1)],
            13,
            "{\"finished\":true,\"outputs\":{\"0.1\":[3]},\"peaks\":{\"0.0E\":1},\"steps\":13}\n",
        ),
        (
            3,
            &[Word::Num(1), Word::Num(2), Word::Num(3)],
            &[(1, 1), (5, 1)],
            34,
            "{\"finished\":true,\"outputs\":{\"0.2\":[1,2,3]},\"peaks\":{\"0.0E\":1,\"0.1E\":1},\"steps\":34}\n",
        ),
    ];
    for (cells, words, peaks, steps, wanted) in table {
        let text = line(rt.alloc(), cells, words, peaks, None, steps)?;
        assert_eq!(rt; text.as_slice(), wanted.as_bytes());
    }
    Ok(())
}

#[test]
fn stopped_runs(rt: HostRuntime) -> Result<(), Fail> {
    let table: [(Actor, u32, u32, &str); 2] = [
        (
            Actor::Cell(1),
            1,
            5,
            "{\"finished\":false,\"next\":\"c1\",\"outputs\":{\"0.1\":[]},\"peaks\":{\"0.0E\":1},\"steps\":5}\n",
        ),
        (
            Actor::Cell(0),
            0,
            0,
            "{\"finished\":false,\"next\":\"c0\",\"outputs\":{\"0.1\":[]},\"peaks\":{\"0.0E\":0},\"steps\":0}\n",
        ),
    ];
    for (next, peak, steps, wanted) in table {
        let text = line(rt.alloc(), 2, &[], &[(1, peak)], Some(next), steps)?;
        assert_eq!(rt; text.as_slice(), wanted.as_bytes());
    }
    Ok(())
}

#[test]
fn faults_are_words(rt: HostRuntime) -> Result<(), Fail> {
    let table: [(&[Word], u32, &str); 2] = [
        (
            &[fault(Kind::Z, 3)],
            4,
            "{\"finished\":true,\"outputs\":{\"0.0\":[\"!Z@0:3\"]},\"peaks\":{},\"steps\":4}\n",
        ),
        (
            &[
                fault(Kind::O, 4),
                fault(Kind::X, 5),
                Word::Num(4),
                fault(Kind::X, 7),
            ],
            21,
            "{\"finished\":true,\"outputs\":{\"0.0\":[\"!O@0:4\",\"!X@0:5\",4,\"!X@0:7\"]},\"peaks\":{},\"steps\":21}\n",
        ),
    ];
    for (words, steps, wanted) in table {
        let text = line(rt.alloc(), 1, words, &[], None, steps)?;
        assert_eq!(rt; text.as_slice(), wanted.as_bytes());
    }
    Ok(())
}

#[test]
fn links_stand_in_byte_order(rt: HostRuntime) -> Result<(), Fail> {
    let text = line(rt.alloc(), 12, &[], &[(5, 2), (41, 1)], None, 9)?;
    let wanted =
        "{\"finished\":true,\"outputs\":{\"0.11\":[]},\"peaks\":{\"0.10E\":1,\"0.1E\":2},\"steps\":9}\n";
    assert_eq!(rt; text.as_slice(), wanted.as_bytes());
    Ok(())
}

/// The meaning line of a row of cells, of which these emit.
fn meaning(alloc: Global, outputs: &Outputs, emits: &[u32]) -> Result<Vec<u8>, Fail> {
    let grid = Grid::new(1, emits.len() as u64).ok_or("no grid")?;
    let count = usize::from(grid.cells());
    if outputs.cells.len() != count || emits.len() != count {
        return Err("not of the grid".into());
    }
    Ok(meaning_text(alloc, &grid, outputs, emits)?)
}

#[test]
fn meanings(rt: HostRuntime) -> Result<(), Fail> {
    let words = [Word::Num(1), Word::Num(2), Word::Num(3), Word::Num(0)];
    let text = meaning(rt.alloc(), &outputs(rt.alloc(), 3, &words)?, &[0, 0, 4])?;
    assert_eq!(rt;
        text.as_slice(),
        b"{\"outputs\":{\"0.2\":[1,2,3,0]}}\n".as_slice()
    );
    Ok(())
}

#[test]
fn cells_stand_in_byte_order(rt: HostRuntime) -> Result<(), Fail> {
    let outputs = outputs(rt.alloc(), 11, &[Word::Num(1)])?;
    let text = meaning(rt.alloc(), &outputs, &[0, 0, 1, 0, 0, 0, 0, 0, 0, 0, 1])?;
    assert_eq!(rt;
        text.as_slice(),
        b"{\"outputs\":{\"0.10\":[1],\"0.2\":[]}}\n".as_slice()
    );
    Ok(())
}
