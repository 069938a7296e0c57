// The trees of SELECT.
use crate::expr::Node;
use gq_base::List;
use gq_value::Txt;

/// The input that `+=` feeds to an accumulator.
#[cycle(input)]
#[derive(Drop)]
pub enum InputTree {
    One(Node),

    /// Keys, and an input for each part.
    Keyed(List<Node>, List<InputTree>),
}

/// A change of an accumulator.
#[derive(Drop)]
pub enum ChangeTree {
    /// `+=`.
    Feed(InputTree),

    /// `=`.
    Set(Node),
}

/// An act of ACCUM or POST-ACCUM.
#[cycle(act)]
#[derive(Drop)]
pub enum ActTree {
    /// A change of the accumulator of this name, with its `@`, at an alias.
    Attached(Txt, Txt, ChangeTree),

    /// A change of the global accumulator of this name.
    Global(Txt, ChangeTree),

    /// IF and each ELSE IF with its condition, and the acts after ELSE.
    If(List<(Node, List<ActTree>)>, Option<List<ActTree>>),
}

/// The types at a place of a pattern.
#[derive(Drop)]
pub enum TypesTree {
    /// ANY and `_`.
    Any,
    Named(List<Txt>),
}

/// One hop: edges and where they lead, each with types and an alias that may be left out.
#[derive(Drop)]
pub struct HopTree {
    pub edges: Option<TypesTree>,
    pub edge_alias: Option<Txt>,
    pub targets: Option<TypesTree>,
    pub target_alias: Option<Txt>,
}

/// How a step walks an edge type.
#[derive(Clone, Copy, Debug, PartialEq, Eq)]
pub enum Way {
    /// `E>`.
    Forward,

    /// `<E`.
    Backward,

    /// `E`.
    Both,
}

/// A step of a path.
#[derive(Drop)]
pub struct StepTree {
    pub ways: List<(Way, Txt)>,
    pub edge_alias: Option<Txt>,
    pub targets: TypesTree,
    pub target_alias: Option<Txt>,
}

/// The pattern of a SELECT, after its source.
#[derive(Drop)]
pub enum PatternTree {
    Hop(HopTree),

    /// One to three steps.
    Path(List<StepTree>),
}

/// SELECT.
#[derive(Drop)]
pub struct SelectTree {
    pub selected: Txt,
    pub source: Txt,
    pub alias: Option<Txt>,
    pub walk: Option<PatternTree>,
    pub filter: Option<Node>,
    pub accum: Option<List<ActTree>>,
    pub post: Option<List<ActTree>>,
    pub having: Option<Node>,

    /// The values to order by, each with whether it descends; there is at least one.
    pub order: Option<List<(Node, bool)>>,
    pub limit: Option<Node>,
}
