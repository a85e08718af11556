ghost use Rattle.std.specs.Prelude.{IfOk, OnOk, ◌+◌, All};
ghost use Rattle.cell_types.specs.Communications.{copies};
ghost use Rattle.comm_sequence.specs.Parts.{part_loops, part_unrolled, unrolled, loops};
ghost use Rattle.comm_sequence.specs.bodies.Walking.{operations, AreOperations, HasGrown, IsFull};

use crate::part::Part;
use std::alloc::{AllocError, Global};

/// The writes and reads of parts alone, without loops that have none.
#[cycle(trimming)]
pub(crate) fn operations_of(alloc: Global, parts: &[Part]) -> Result<Vec<Part>, AllocError>
    ensures { IfOk result (λ kept. AreOperations parts.now kept.items) }
{
    let mut kept = Vec::new(alloc);
    for part in parts {
        keep(alloc, part, &mut kept)?;
    }
    Ok(kept)
}

/// Appends the writes and reads of a part.
#[cycle(trimming)]
fn keep(alloc: Global, part: &Part, kept: &mut Vec<Part>) -> Result<(), AllocError>
    ensures { OnOk result (HasGrown kept.old.items kept.new.items
        (operations (part_unrolled part.now)) (part_loops part.now)) }
{
    match part {
        Part::One(operation) => {
            kept.push(Part::One(*operation))?;
            Ok(())
        }
        Part::Take => Ok(()),
        Part::Emit => Ok(()),
        Part::Repeat { turns, parts } => {
            let parts = operations_of(alloc, parts.as_slice())?;
            push_loop(kept, *turns, parts)
        }
    }
}

/// Appends a loop, unless it has no turns or nothing to repeat.
pub(crate) fn push_loop(
    list: &mut Vec<Part>,
    turns: u32,
    parts: Vec<Part>,
) -> Result<(), AllocError>
    requires { All IsFull parts.items }
    ensures { OnOk result (HasGrown list.old.items list.new.items
        (copies turns (unrolled parts.items)) (1 + loops parts.items)) }
{
    if turns == 0 || parts.is_empty() {
        return Ok(());
    }
    list.push(Part::Repeat { turns, parts })?;
    Ok(())
}
