// The rows of a store, and the candidates of a block.
use crate::types::Numbers;
use gq_base::OutOfMemory;
use gq_value::{Row, Txt};
use thiserror::Error;

/// Why a table refuses a row.
#[derive(Clone, Copy, Debug, Error, PartialEq, Eq)]
pub enum StoreFault {
    /// The row's name is new, and the table holds as many rows as it may.
    #[error("store full")]
    Full,
    #[error("out of memory")]
    OutOfMemory,
}

impl From<OutOfMemory> for StoreFault {
    fn from(_: OutOfMemory) -> Self {
        StoreFault::OutOfMemory
    }
}

/// A vertex: its type, its primary id as a text, and its attributes.
#[derive(Debug, Drop)]
pub struct VertexRow {
    pub kind: u32,
    pub id: Txt,
    pub attributes: Row,
}

/// An edge: its type, its two ends by number of vertex, and its attributes.
#[derive(Debug, Drop)]
pub struct EdgeRow {
    pub kind: u32,
    pub from: u32,
    pub to: u32,
    pub attributes: Row,
}

/// How the edges of a type are named.
#[derive(Clone, Copy, Debug, PartialEq, Eq)]
pub struct Naming {
    /// The edge type.
    pub kind: u32,
    pub directed: bool,
    /// How many of an edge's attributes, from the first one on, belong to its name.
    pub key: u32,
}

/// The edge types that a hop may take, and the vertex types that it may reach.
#[derive(Debug, Drop)]
pub struct Pattern {
    pub edges: Numbers,
    pub targets: Numbers,
}

/// One way to bind a block's names: a source vertex and, if the block has a pattern, an edge row that can be walked
/// from it under an edge type, and the row's far end. All of them are numbers.
#[derive(Clone, Copy, Debug, PartialEq, Eq)]
pub struct Candidate {
    pub source: u32,
    pub edge: Option<u32>,
    pub kind: Option<u32>,
    pub target: Option<u32>,
}
