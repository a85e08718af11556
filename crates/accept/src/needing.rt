//! What the links of a source need.
ghost use Rattle.std.specs.Prelude.{◌≡◌, ◌*◌, ◌<◌, Some, IfOk, IfErr, length};
ghost use Rattle.sys_base.specs.Grid.{cell_count};
ghost use Rattle.cell_types.specs.Typed.{plain};
ghost use Rattle.accept.specs.Needs.{AreNeeds, HasNoNeeds, need_text};
ghost use Rattle.accept.specs.bodies.Needing.{lines_below, need_at};

use crate::building::{AcceptError, program_in};
use crate::judging::{labelled, ordered};
use crate::laws::laws_below;
use crate::queues::link_groups;
use cell_types::Program;
use queue_plan::Groups;
use std::alloc::Global;
use std::fmt;
use sys_base::{CellName, Dir, LinkName, Memory};

/// How many queues a link with a group needs, and how many it has (`docs/model.md`, "Groups and queues"), printed as
/// `link 0.0E need 2 has 1`.
///
/// The link is named by the cell that it leaves, whose row and column are counted from 0, and by its direction.
#[derive(Clone, Copy, Debug, PartialEq, Eq)]
pub struct NeedLine {
    pub row: u8,
    pub col: u8,
    pub dir: Dir,
    /// The number of messages in the largest group of the link, 1 to 512.
    pub need: u16,
    /// The queues of the link, 0 to 32.
    pub has: u8,
}

/// What each link with a group needs and has, in order of the links' ids; or the first refusal of the source other than
/// those of its queues and of its bound (`docs/refusals.md`). The text may be any bytes.
///
/// The time is that of `build`.
pub fn needs(alloc: Global, text: &[u8]) -> Result<Vec<NeedLine>, AcceptError>
    ensures needs { IfOk result (λ lines. AreNeeds text.now lines.items) }
    ensures refused { IfErr result (HasNoNeeds text.now) }
{
    laws_below();
    let program = program_in(alloc, text)?;
    let cells = ordered(alloc, &program)?;
    let labels = labelled(alloc, &program, &cells.seqs)?;
    let groups = link_groups(alloc, &program, &cells.seqs, &labels)?;
    let lines = need_lines(alloc, &program, &groups)?;
    Ok(lines)
}

impl fmt::Display for NeedLine {
    ghost output = { λ line. Some (need_text line) };

    #[tactic(auto, unfolding(crate::specs::Needs::need_text))]
    fn fmt<W: fmt::Write>(&self, f: &mut fmt::Formatter<W>) -> fmt::Result {
        write!(
            f,
            "link {} need {} has {}",
            self.link(),
            self.need,
            self.has
        )
    }
}

impl NeedLine {
    /// The name of the link.
    fn link(self) -> LinkName
        ensures { result ≡ record { cell = record { row = self.row; col = self.col }; dir = self.dir } }
    {
        LinkName {
            cell: CellName {
                row: self.row,
                col: self.col,
            },
            dir: self.dir,
        }
    }
}

/// The lines of the links that have a group.
fn need_lines(alloc: Global, program: &Program, groups: &Groups) -> Result<Vec<NeedLine>, Memory>
    requires { length groups.now ≡ 4 * cell_count program.now.grid }
    ensures { IfOk result (λ lines.
        lines.items ≡ lines_below (plain program.now) groups.now (4 * cell_count program.now.grid)) }
{
    let mut lines = Vec::new(alloc);
    for link in 0..4 * program.grid().cells() {
        if groups.label(link, 0).is_some() {
            lines.push(need_line(program, groups, link))?;
        }
    }
    Ok(lines)
}

/// The line of a link.
fn need_line(program: &Program, groups: &Groups, link: u16) -> NeedLine
    requires there { link < 4 * cell_count program.now.grid }
    requires links { length groups.now ≡ 4 * cell_count program.now.grid }
    ensures { result ≡ need_at (plain program.now) groups.now link }
{
    let has = program.queues()[usize::from(link)];
    let LinkName {
        cell: CellName { row, col },
        dir,
    } = program.grid().link_name(link);
    NeedLine {
        row,
        col,
        dir,
        need: groups.need(link),
        has,
    }
}
