ghost use Rattle.std.specs.Prelude.{◌≡◌, ◌≤◌, IfOk};
ghost use Rattle.pair_gen.specs.Generated.{generated};

use crate::cells::cells;
use crate::drawing::draw_messages;
use crate::messages::message_declarations;
use crate::names::Names;
use cell_tree::Source;
use std::alloc::Global;
use sys_base::{Items, Memory};

/// The source of this many generated pairs, 1 to 20,000, whose messages are drawn by the generator of the seed
/// (`docs/pairs.md`). Line fields follow the layout of the canonical text.
pub fn generate(alloc: Global, seed: u64, pairs: u32) -> Result<Source, Memory>
    requires some { 1 ≤ pairs }
    requires most { pairs ≤ 20000 }
    ensures { IfOk result (λ source. source ≡ generated seed pairs) }
{
    let drawn = draw_messages(alloc, seed, pairs)?;
    let names = Names::new(alloc)?;
    Ok(Source {
        rows: 4,
        cols: 4,
        array_line: 1,
        queues: 24,
        queues_line: 2,
        buffer: 0,
        buffer_line: 0,
        links: Items::new(alloc),
        messages: message_declarations(alloc, &names)?,
        cells: cells(alloc, &names, &drawn)?,
    })
}
