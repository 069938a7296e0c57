// The content of an accumulator.
ghost use Rattle.std.specs.Prelude.{◌≡◌, true, IfOk, IsOk, OnOk, OnErr, IsErr};
ghost use Rattle.gq_value.specs.Accums as plain;
ghost use Rattle.gq_value.specs.AccumViews.{accum_of, given};
ghost use Rattle.gq_value.specs.Views.{val};
ghost use Rattle.gq_accum_laws.specs.After as model;
ghost use Rattle.gq_nest.specs.Shows.{IsList, Shows, ShowsTheSame, TakesContent, TakesInput, is_one, is_plain, is_spoiled};

use crate::copies::duplicate;
use crate::feed::{feed, push};
use crate::fresh::fresh;
use crate::map::SortedMap;
use crate::merge::merge;
use crate::set::SortedSet;
use gq_accum::Scalar;
use gq_base::{Boxed, List, OutOfMemory};
use gq_value::{Input, Kind, Value};
use std::alloc::Global;

/// The content of an accumulator of any kind.
///
/// The variants are public because contents contain contents; callers use the methods below. A content that runs out of
/// memory while it takes an input or another content is spoiled, and stays so. One of a scalar kind never allocates, so
/// it is never spoiled.
#[derive(Drop)]
pub enum Content {
    Scalar(Scalar),
    Set(SortedSet<Value>),
    Bag(List<Value>),
    List(List<Value>),
    Heap(Heap),
    /// The initial content of a new key, and the content of each key.
    Map(Boxed<Content>, SortedMap<Value, Content>),
    /// The initial parts of a new key row, and the parts of each key row.
    Group(Boxed<Parts>, SortedMap<Vec<Value>, Parts>),
    /// A content that ran out of memory; what it held is lost.
    Spoiled,
}

/// The parts of a group, in order of declaration.
pub type Parts = List<Content>;

/// The first tuples of a heap, at most `capacity` of them, as a binary heap whose root is the last: no tuple is ordered
/// after its parent.
#[derive(Drop)]
pub struct Heap {
    pub(crate) capacity: u32,
    pub(crate) order: Boxed<List<(u32, bool)>>,
    pub(crate) tuples: List<Value>,
}

impl Content {
    /// The content before any input.
    pub fn fresh(alloc: Global, kind: &Kind) -> Result<Content, OutOfMemory>
        ensures { IfOk result (λ c. Shows (accum_of kind.now) c (model.fresh (accum_of kind.now))) }
    {
        fresh(alloc, kind)
    }

    /// Whether an earlier `feed`, `merge` or `push` returned `OutOfMemory`. Doesn't allocate.
    #[tactic(auto, using(crate::proofs::LevelLemmas::opened))]
    pub fn spoiled(&self) -> bool
        ensures { result ≡ is_spoiled self.now }
    {
        match self {
            Content::Spoiled => true,
            Content::Scalar(_)
            | Content::Set(_)
            | Content::Bag(_)
            | Content::List(_)
            | Content::Heap(_)
            | Content::Map(_, _)
            | Content::Group(_, _) => false,
        }
    }

    /// Feeds one input.
    #[tactic(auto, using(crate::proofs::LevelLemmas::opened, crate::proofs::ShowSteps::takes_input))]
    pub fn feed(&mut self, alloc: Global, input: &Input) -> Result<(), OutOfMemory>
        ensures fed { OnOk result (TakesInput self.old (given input.now) self.new) }
        ensures spoiled { OnErr result (is_spoiled self.new ≡ true) }
        ensures stays { is_spoiled self.old ≡ true → IsErr result }
        // A number, truth or average doesn't allocate.
        ensures plain { is_plain self.old ≡ true → is_one (given input.now) ≡ true → IsOk result }
    {
        match feed(alloc, self, input) {
            Ok(()) => Ok(()),
            Err(_) => {
                *self = Content::Spoiled;
                Err(OutOfMemory)
            }
        }
    }

    /// Merges `other`, a content of the same kind. One of another form changes nothing.
    #[tactic(auto, using(crate::proofs::LevelLemmas::opened, crate::proofs::ShowSteps::takes_content))]
    pub fn merge(&mut self, alloc: Global, other: &Content) -> Result<(), OutOfMemory>
        ensures merged { OnOk result (TakesContent self.old other.now self.new) }
        ensures spoiled { OnErr result (is_spoiled self.new ≡ true) }
        ensures stays { is_spoiled self.old ≡ true → IsErr result }
        ensures plain { is_plain self.old ≡ true → is_plain other.now ≡ true → IsOk result }
    {
        match merge(alloc, self, other) {
            Ok(()) => Ok(()),
            Err(_) => {
                *self = Content::Spoiled;
                Err(OutOfMemory)
            }
        }
    }

    /// Appends a value to a list, without a copy.
    #[tactic(auto, using(crate::proofs::LevelLemmas::opened, crate::proofs::ShowSteps::takes_input))]
    pub fn push(&mut self, x: Value) -> Result<(), OutOfMemory>
        requires { IsList self.old }
        ensures pushed { OnOk result (TakesInput self.old (plain.One (val x)) self.new) }
        ensures spoiled { OnErr result (is_spoiled self.new ≡ true) }
        ensures stays { is_spoiled self.old ≡ true → IsErr result }
        ensures list { IsList self.new }
    {
        match push(self, x) {
            Ok(()) => Ok(()),
            Err(_) => {
                *self = Content::Spoiled;
                Err(OutOfMemory)
            }
        }
    }

    /// A deep copy.
    #[tactic(auto, using(crate::proofs::LevelLemmas::opened, crate::proofs::ShowSteps::shows_the_same))]
    pub fn duplicate(&self, alloc: Global) -> Result<Content, OutOfMemory>
        ensures same { IfOk result (λ copy. ShowsTheSame self.now copy) }
        ensures stays { is_spoiled self.now ≡ true → IsErr result }
    {
        if self.spoiled() {
            return Err(OutOfMemory);
        }
        duplicate(alloc, self)
    }
}
