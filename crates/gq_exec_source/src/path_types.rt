// The pattern of a path.
use gq_base::{List, OutOfMemory};
use gq_graph::Numbers;
use gq_tree::Way;
use thiserror::Error;

/// One step of a path: the edge types that it walks, each with a way, and the vertex types that it may reach.
/// Duplicates count once.
#[derive(Debug, Drop)]
pub struct PathStep {
    pub edges: List<(Way, u32)>,
    pub targets: Numbers,
}

/// The steps of a path, from its source on.
pub type PathPattern = List<PathStep>;

/// Why the bindings of a path aren't listed.
#[derive(Clone, Copy, Debug, Error, PartialEq, Eq)]
pub enum PathsFault {
    /// There are more than `MOST_PATHS` of them.
    #[error("more than 4194304 paths")]
    TooMany,
    #[error("out of memory")]
    OutOfMemory,
}

impl From<OutOfMemory> for PathsFault {
    fn from(_: OutOfMemory) -> Self {
        PathsFault::OutOfMemory
    }
}
