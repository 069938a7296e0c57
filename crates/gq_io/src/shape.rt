// How a block's work is divided.

/// How the work of a block is divided among workers. It affects speed, and never a result.
#[derive(Clone, Copy, Debug, PartialEq, Eq)]
pub struct Shape {
    /// The number of workers that run a block: 1 to 64.
    pub workers: u32,

    /// The number of candidates that a worker takes at a time: 1 to 1,048,576.
    pub chunk: u64,

    /// The number of parts of a book of accumulators, each with its own lock: 1 to 256. Blocks feed in order and need
    /// none.
    pub stripes: u32,
}
