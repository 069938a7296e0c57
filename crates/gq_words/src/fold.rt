// The operations of words.

/// How a word takes an input.
#[derive(Clone, Copy, PartialEq, Eq, Debug)]
pub enum Op {
    /// Keeps the greater of both.
    Max,

    /// Keeps the smaller of both.
    Min,

    /// Keeps the bits of either.
    Or,

    /// Keeps the bits that both have.
    And,
}
