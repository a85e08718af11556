ghost use Rattle.std.specs.Prelude.{◌-◌, ◌≤◌, length};
ghost use Rattle.std.specs.List.{All};
ghost use Rattle.cell_lexer.specs.declared.limits.TheConstants.{PIECE_TOKENS, OPEN_BRACES};
ghost use Rattle.cell_tree.specs.Depth.{cell_stack, cell_loops};
ghost use Rattle.cell_tree.specs.Printable.{IsPrintable};
ghost use Rattle.cell_tree.specs.declared.source.Source.{Source};

/// A law: each cell of a printable source needs a stack of at most 256 values, and at most 16 of its loops stand
/// inside one another.
pub fn printable_is_shallow()
    ensures stack { (source : Source) → IsPrintable source → All (λ cell. cell_stack cell ≤ PIECE_TOKENS) source.cells }
    ensures loops { (source : Source) → IsPrintable source
        → All (λ cell. cell_loops cell ≤ OPEN_BRACES - 1) source.cells }
{}

/// A law: the route of each message of a printable source has at most 256 directions.
pub fn printable_routes_are_short()
    ensures { (source : Source) → IsPrintable source
        → All (λ message. length message.route ≤ PIECE_TOKENS) source.messages }
{}
