ghost use Rattle.std.specs.Prelude.{◌≡◌, ℕ, ◌+◌, ◌-◌, ◌^◌, ◌<◌, ◌≤◌, length, drop, slice_index};
ghost use Rattle.sys_base.specs.declared.limits.TheConstants.{SOURCE_BYTES};
ghost use Rattle.cell_lexer.specs.Forms.{Longest};
ghost use Rattle.cell_lexer.specs.Places.{line_at, column_at};
ghost use Rattle.cell_lexer.specs.Inner.Scanning.{IsPlace};

/// A line and a column of a text, both from 1; a column is a number of bytes.
#[derive(Clone, Copy, Debug, PartialEq, Eq)]
pub struct Position {
    pub line: u32,
    pub column: u32,
}

/// Where a text ends: the line and the column of the byte that would come next.
pub fn end_of(text: &[u8]) -> Position
    requires { length text.now < 2 ^ 32 - 1 }
    ensures line { result.line ≡ line_at text.now (length text.now) }
    ensures column { result.column ≡ column_at text.now (length text.now) }
{
    let mut place = START;
    'bytes: while (place.at as usize) < text.len() {
        place = step(text, place);
    }
    Position {
        line: place.line,
        column: place.column,
    }
}

/// A place between two bytes of a text, with its line and its column.
#[derive(Clone, Copy, Debug, PartialEq, Eq)]
pub(crate) struct Place {
    pub at: u32,
    pub line: u32,
    pub column: u32,
}

/// Where every text begins.
pub(crate) const START: Place = Place {
    at: 0,
    line: 1,
    column: 1,
};

/// The place one byte on.
pub(crate) fn step(text: &[u8], place: Place) -> Place
    requires short { length text.now < 2 ^ 32 - 1 }
    requires inside { place.at < length text.now }
    requires place { IsPlace text.now place }
    ensures place { IsPlace text.now result }
    ensures next { result.at ≡ place.at + 1 }
{
    let at = place.at + 1;
    if text[place.at as usize] == b'\n' {
        Place {
            at,
            line: place.line + 1,
            column: 1,
        }
    } else {
        Place {
            at,
            line: place.line,
            column: place.column + 1,
        }
    }
}

/// The place this many bytes on, where none of them is a newline.
pub(crate) fn along(text: &[u8], place: Place, len: u32) -> Place
    requires short { length text.now < 2 ^ 32 - 1 }
    requires place { IsPlace text.now place }
    requires inside { place.at + len ≤ length text.now }
    requires line { (k : ℕ) → k < len → slice_index text.now (place.at + k) ≡ 10 → ⊥ }
    ensures place { IsPlace text.now result }
    ensures next { result.at ≡ place.at + len }
{
    Place {
        at: place.at + len,
        line: place.line,
        column: place.column + len,
    }
}

/// The place after a token of this many bytes.
pub(crate) fn past(text: &[u8], place: Place, len: u32) -> Place
    requires short { length text.now ≤ SOURCE_BYTES }
    requires place { IsPlace text.now place }
    requires token { Longest (drop place.at text.now) len }
    ensures place { IsPlace text.now result }
    ensures next { result.at ≡ place.at + len }
{
    along(text, place, len)
}
