/// Why no token stands at the front of some bytes, without a place.
#[derive(Clone, Copy, Debug, PartialEq, Eq)]
pub(crate) enum Flaw {
    /// No token begins with the first byte.
    Bad,
    /// The number is too great.
    Big,
    /// The name is too long.
    Long,
}
