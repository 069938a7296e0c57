// Blocks of a plan: SELECT.
use crate::expr::Expr;
use gq_base::List;
use gq_tree::Way;

/// The input that `+=` feeds to an accumulator.
#[cycle(feed)]
#[derive(Drop)]
pub enum Feed {
    One(Expr),

    /// Keys, and a feed for each part.
    Keyed(List<Expr>, List<Feed>),
}

/// A change of an accumulator.
#[derive(Drop)]
pub enum Change {
    /// `+=`.
    Feed(Feed),

    /// `=`.
    Set(Expr),
}

/// An act of ACCUM or POST-ACCUM.
#[cycle(act)]
#[derive(Drop)]
pub enum Act {
    /// At the alias of a place, a change of the accumulator in a slot.
    Attached(u32, u32, Change),

    /// A change of the global accumulator in a slot.
    Global(u32, Change),

    /// IF and each ELSE IF with its condition, and the acts after ELSE.
    If(List<(Expr, List<Act>)>, Option<List<Act>>),
}

/// The types at a place of a pattern, by their numbers.
#[derive(Drop)]
pub enum Types {
    /// Every type that may occur there.
    Every,
    These(List<u32>),
}

/// One hop: edges and where they lead, each with the place of its alias.
#[derive(Drop)]
pub struct Hop {
    pub edges: Types,
    pub edge_alias: Option<u32>,
    pub targets: Types,
    pub target_alias: Option<u32>,
}

/// A step of a path.
#[derive(Drop)]
pub struct PathStep {
    pub ways: List<(Way, u32)>,
    pub edge_alias: Option<u32>,
    pub targets: Types,
    pub target_alias: Option<u32>,
}

/// The pattern after the source.
#[derive(Drop)]
pub enum Walk {
    Nowhere,
    Hop(Hop),

    /// One to three steps.
    Path(List<PathStep>),
}

/// The source of a SELECT.
#[derive(Clone, Copy, Debug, PartialEq, Eq)]
pub enum SelectSource {
    /// The set variable at a place.
    Set(u32),

    /// All vertices of the type with this number.
    Type(u32),
}

/// SELECT. Without ACCUM or POST-ACCUM there are no acts, without ORDER BY no values.
#[derive(Drop)]
pub struct Block {
    /// The place of the selected alias.
    pub selected: u32,
    pub source: SelectSource,
    pub alias: Option<u32>,
    pub walk: Walk,
    pub filter: Option<Expr>,
    pub accum: List<Act>,
    pub post: List<Act>,
    pub having: Option<Expr>,

    /// The values to order by, each with whether it descends.
    pub order: List<(Expr, bool)>,
    pub limit: Option<Expr>,
}
