//! The names of cells and links, as they are printed.
ghost use Rattle.std.specs.Prelude.{◌≡◌, ◌*◌, ◌/◌, ◌%◌, ◌<◌, ◌≤◌, Some};
ghost use Rattle.sys_base.specs.Grid.{cell_count};
ghost use Rattle.sys_base.specs.Names.{cell_name, cell_text, dir_letter, dir_of, link_name, link_text};

use crate::grid::Grid;
use crate::kinds::Dir;
use crate::limits::SIDE;
use std::fmt;

/// The name of a cell: its row and its column, both from 0, printed as `0.1`.
#[derive(Clone, Copy, Debug, PartialEq, Eq)]
pub struct CellName {
    pub row: u8,
    pub col: u8,
}

/// The name of a link: the cell that it leaves and its direction, printed as `0.1E`.
#[derive(Clone, Copy, Debug, PartialEq, Eq)]
pub struct LinkName {
    pub cell: CellName,
    pub dir: Dir,
}

impl CellName {
    /// The name of a cell by its index, in a grid with this number of columns.
    pub fn of(cols: u64, cell: u16) -> CellName
        requires some { 1 ≤ cols }
        requires most { cols ≤ SIDE }
        requires row { cell < SIDE * cols }
        ensures { result ≡ cell_name cols cell }
    {
        let cell = u64::from(cell);
        CellName {
            row: (cell / cols) as u8,
            col: (cell % cols) as u8,
        }
    }
}

impl LinkName {
    /// The name of a link by its id, in a grid with this number of columns.
    pub fn of(cols: u64, link: u16) -> LinkName
        requires some { 1 ≤ cols }
        requires most { cols ≤ SIDE }
        requires row { link / 4 < SIDE * cols }
        ensures { result ≡ link_name cols link }
    {
        LinkName {
            cell: CellName::of(cols, link / 4),
            dir: dir_of(link),
        }
    }
}

impl Grid {
    /// The name of a cell.
    pub fn cell_name(&self, cell: u16) -> CellName
        requires { cell < cell_count self.now }
        ensures { result ≡ cell_name self.now.cols cell }
    {
        CellName::of(u64::from(self.cols()), cell)
    }

    /// The name of a link.
    pub fn link_name(&self, link: u16) -> LinkName
        requires { link < 4 * cell_count self.now }
        ensures { result ≡ link_name self.now.cols link }
    {
        LinkName::of(u64::from(self.cols()), link)
    }
}

/// The direction of a link by its id.
fn dir_of(link: u16) -> Dir
    ensures { result ≡ dir_of (link % 4) }
{
    match link % 4 {
        0 => Dir::N,
        1 => Dir::E,
        2 => Dir::S,
        _ => Dir::W,
    }
}

impl Dir {
    /// The letter of a direction.
    pub fn letter(self) -> &'static str
        ensures { result.now ≡ dir_letter self }
    {
        match self {
            Dir::N => "N",
            Dir::E => "E",
            Dir::S => "S",
            Dir::W => "W",
        }
    }
}

impl fmt::Display for Dir {
    ghost output = { λ dir. Some (dir_letter dir) };

    fn fmt<W: fmt::Write>(&self, f: &mut fmt::Formatter<W>) -> fmt::Result {
        f.write_str(self.letter())
    }
}

impl fmt::Display for CellName {
    ghost output = { λ name. Some (cell_text name) };

    #[tactic(auto, unfolding(crate::specs::Names::cell_text))]
    fn fmt<W: fmt::Write>(&self, f: &mut fmt::Formatter<W>) -> fmt::Result {
        write!(f, "{}.{}", self.row, self.col)
    }
}

impl fmt::Display for LinkName {
    ghost output = { λ name. Some (link_text name) };

    #[tactic(auto, unfolding(crate::specs::Names::link_text))]
    fn fmt<W: fmt::Write>(&self, f: &mut fmt::Formatter<W>) -> fmt::Result {
        write!(f, "{}{}", self.cell, self.dir)
    }
}
