ghost use Rattle.std.specs.Prelude.{◌≡◌, ℕ, ◌<◌, ◌≤◌, length, drop, slice_index, IfSome, IfNone};
ghost use Rattle.sys_base.specs.declared.limits.TheConstants.{SOURCE_BYTES};
ghost use Rattle.cell_lexer.specs.Gaps.{Comment, Gap};
ghost use Rattle.cell_lexer.specs.Inner.Scanning.{IsPlace, IsSolid};

use crate::place::{Place, along, step};
use sys_base::bytes::is_space;

/// Where the gap that begins here ends, which may be here.
pub(crate) fn gap_end(text: &[u8], start: Place) -> Place
    requires short { length text.now ≤ SOURCE_BYTES }
    requires place { IsPlace text.now start }
    ensures place { IsPlace text.now result }
    ensures gap { Gap (drop start.at text.now) (drop result.at text.now) }
    ensures onward { start.at ≤ result.at }
    ensures solid { result.at < length text.now → IsSolid (slice_index text.now result.at) }
{
    let mut place = start;
    'gap: while let Some(next) = gap_step(text, place) {
        place = next;
    }
    place
}

/// The place after the separator or the comment that begins here; `None` where neither does.
fn gap_step(text: &[u8], place: Place) -> Option<Place>
    requires short { length text.now ≤ SOURCE_BYTES }
    requires place { IsPlace text.now place }
    ensures place { IfSome result (λ next. IsPlace text.now next) }
    ensures gap { IfSome result (λ next. Gap (drop place.at text.now) (drop next.at text.now)) }
    ensures onward { IfSome result (λ next. place.at < next.at) }
    ensures solid { IfNone result (place.at < length text.now → IsSolid (slice_index text.now place.at)) }
{
    if place.at as usize == text.len() {
        return None;
    }
    match text[place.at as usize] {
        b'#' => Some(comment_end(text, step(text, place))),
        byte if is_space(byte) => Some(step(text, place)),
        _ => None,
    }
}

/// Where a comment whose `#` stands before this place ends: before the next newline or at the end of the text.
fn comment_end(text: &[u8], start: Place) -> Place
    requires short { length text.now ≤ SOURCE_BYTES }
    requires place { IsPlace text.now start }
    ensures place { IsPlace text.now result }
    ensures comment { Comment (drop start.at text.now) (drop result.at text.now) }
    ensures onward { start.at ≤ result.at }
{
    let len = line_len(&text[start.at as usize..]);
    along(text, start, len as u32)
}

/// How many bytes stand before the first newline.
fn line_len(rest: &[u8]) -> usize
    ensures inside { result ≤ length rest.now }
    ensures each { (k : ℕ) → k < result → slice_index rest.now k ≡ 10 → ⊥ }
    ensures stop { result < length rest.now → slice_index rest.now result ≡ 10 }
{
    for (len, byte) in rest.iter().enumerate() {
        if *byte == b'\n' {
            return len;
        }
    }
    rest.len()
}
