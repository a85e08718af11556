use crate::walk::WalkLine;
use sys_base::{CellName, Items, Limit, LinkName, Name};

/// What stands twice in a source.
#[derive(Debug, Drop)]
pub enum Twice {
    Link(LinkName),
    Cell(CellName),
    Named(Name),
}

/// Why a source is refused, printed as its line (`docs/refusals.md`). Each `line` is that of the token, the declaration
/// or the statement at fault, from 1.
#[derive(Debug, Drop)]
pub enum Refusal {
    /// E01: a byte that begins no token and separates none, at this place in the file, from 0.
    BadByte {
        at: u32,
    },
    /// E02: a token, or the end of the file, that no program has there.
    Unexpected {
        line: u32,
        column: u32,
    },
    /// E03: a number above 9223372036854775807.
    BigNumber {
        line: u32,
    },
    /// E04: a name of more than 32 bytes.
    LongName {
        line: u32,
    },
    /// E05: more than 1048576 bytes.
    LongSource,
    /// E06: the 257th token without `;`, `{` and `}`.
    LongPiece {
        line: u32,
    },
    /// E07: an opening brace where 17 are open.
    Braces {
        line: u32,
    },
    /// E10: a number outside a limit of the language.
    Limit {
        limit: Limit,
        line: u32,
    },
    /// E11: a second declaration of a link, a cell or a name.
    Twice {
        what: Twice,
        line: u32,
    },
    /// E12: a cell or a link outside the grid.
    OutsideGrid {
        line: u32,
    },
    /// E13: a message whose sender is its receiver.
    SelfMessage {
        name: Name,
        line: u32,
    },
    /// E14: a name that nothing declares.
    Unknown {
        name: Name,
        line: u32,
    },
    /// E15: an `if` whose arms communicate differently.
    ArmsDiffer {
        line: u32,
    },
    /// E16: a cell that writes a message which it does not send (`sends`), or reads one which it does not receive.
    WrongEnd {
        name: Name,
        row: u8,
        col: u8,
        sends: bool,
        line: u32,
    },
    /// E17: a name of the wrong kind; found is 0 for a message, 1 for a variable, 2 for an array, and
    /// otherwise a counter.
    WrongKind {
        name: Name,
        found: u8,
        line: u32,
    },
    /// E18: a route that leaves the grid.
    RouteLeaves {
        name: Name,
        line: u32,
    },
    /// E19: a route that does not end at the receiver.
    RouteEnd {
        name: Name,
        line: u32,
    },
    /// E20: a route that uses this link twice.
    RouteTwice {
        name: Name,
        link: LinkName,
        line: u32,
    },
    /// E30: there is no order for the program's buffer. This number of operations is left, and the walk shows why.
    Crossing {
        left: u32,
        walk: Items<WalkLine>,
    },
    /// E40: the operation at this place in the list of a cell, from 0, is of `after`, whose label `second` is less than
    /// the label `first` of `before`, the message of the operation before it.
    Fall {
        row: u8,
        col: u8,
        at: u32,
        before: Name,
        first: u16,
        after: Name,
        second: u16,
    },
    /// E41: this message has no label, and another has one.
    SomeLabels {
        name: Name,
    },
    /// E50: a group of messages with one label on this link needs more queues than the link has.
    TooFew {
        link: LinkName,
        label: u16,
        need: u16,
        has: u8,
        group: Items<Name>,
    },
    /// E60: the cells take more than 16777216 steps.
    CellSteps,
    /// E61: the bound on the steps is above 16777216.
    Bound {
        bound: u32,
    },
}
