//! The limits on numbers, and on the tokens of a text (`docs/language.md`, "Limits").

/// The greatest number of the language, the greatest `i64`.
pub const GREATEST_NUMBER: u64 = 9_223_372_036_854_775_807;

/// The most tokens of a piece, a longest run of tokens without `;`, `{` and `}`.
pub const PIECE_TOKENS: u32 = 256;

/// The most open braces.
pub const OPEN_BRACES: u32 = 17;
