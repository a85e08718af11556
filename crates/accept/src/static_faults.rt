//! Static faults, told by the names of cells and links.
ghost use Rattle.std.specs.Prelude.{◌≡◌, Some, IfOk};
ghost use Rattle.cell_types.specs.Near.{IsWhatNear, NamesNear};
ghost use Rattle.cell_types.specs.declared.error.StaticError.TheVariants as S;
ghost use Rattle.accept.specs.Told.{kind_number, static_refusal, twice};

use cell_types::{Found, RouteFault, StaticError, What};
use refusals::{Refusal, Twice};
use sys_base::{CellName, LinkName, Memory, Name};

/// The refusal of a static fault of a source whose grid has this number of columns; `Memory` where the fault is want of
/// memory.
pub fn static_refusal(cols: u64, fault: StaticError) -> Result<Refusal, Memory>
    requires { NamesNear cols fault }
    ensures { IfOk result (λ r. static_refusal cols fault ≡ Some r) }
{
    Ok(match fault {
        StaticError::Limit { limit, line } => Refusal::Limit { limit, line },
        StaticError::Twice { what, line } => {
            let what = twice(cols, what);
            Refusal::Twice { what, line }
        }
        StaticError::OutsideGrid { line } => Refusal::OutsideGrid { line },
        StaticError::SelfMessage { name, line } => Refusal::SelfMessage { name, line },
        StaticError::Unknown { name, line } => Refusal::Unknown { name, line },
        StaticError::WrongEnd {
            name,
            cell,
            sends,
            line,
        } => {
            let CellName { row, col } = CellName::of(cols, cell);
            Refusal::WrongEnd {
                name,
                row,
                col,
                sends,
                line,
            }
        }
        StaticError::WrongKind { name, found, line } => {
            let found = kind_number(found);
            Refusal::WrongKind { name, found, line }
        }
        StaticError::Route { name, error, line } => route_refusal(cols, name, error, line),
        StaticError::Memory => return Err(Memory),
    })
}

/// The refusal of a route's fault.
fn route_refusal(cols: u64, name: Name, error: RouteFault, line: u32) -> Refusal
    requires { NamesNear cols (S.Route name error line) }
    ensures { static_refusal cols (S.Route name error line) ≡ Some result }
{
    match error {
        RouteFault::LeavesGrid => Refusal::RouteLeaves { name, line },
        RouteFault::WrongEnd => Refusal::RouteEnd { name, line },
        RouteFault::LinkTwice { link } => {
            let link = LinkName::of(cols, link);
            Refusal::RouteTwice { name, link, line }
        }
    }
}

/// What stands twice.
fn twice(cols: u64, what: What) -> Twice
    requires { IsWhatNear cols what }
    ensures { result ≡ twice cols what }
{
    match what {
        What::Named(name) => Twice::Named(name),
        What::Cell(cell) => Twice::Cell(CellName::of(cols, cell)),
        What::Link(link) => Twice::Link(LinkName::of(cols, link)),
    }
}

/// The number of a kind.
fn kind_number(found: Found) -> u8
    ensures { result ≡ kind_number found }
{
    match found {
        Found::Message => 0,
        Found::Variable => 1,
        Found::Array => 2,
        Found::Counter => 3,
    }
}
