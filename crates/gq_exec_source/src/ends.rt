// Both ends.
ghost use Rattle.std.specs.Prelude.{◌≡◌, ℕ, IfOk, List, map};
ghost use Rattle.std.specs.Option.{option_map};
ghost use Rattle.gq_rules_typing.specs.Patterns.{is_alias, target_alias};
ghost use Rattle.gq_rules_typing.specs.Selecting as plain;
ghost use Rattle.gq_plan_ir.specs.BlockView.{view_block, view_path_step, view_walk};
ghost use Rattle.gq_plan_ir.specs.Reference.{Place};
ghost use Rattle.gq_plan_ir.specs.References.{same};
ghost use Rattle.gq_frame.specs.Names.{alias_of};
ghost use Rattle.gq_exec_source.specs.Ends.{HasEnds, as_source, end_things};

use crate::patterns::end_types;
use crate::sources::types_from;
use gq_base::{List, OutOfMemory};
use gq_frame::{Alias, Bound, Thing};
use gq_plan_ir::{Block, PathStep, Plan, Walk};
use gq_schema::Catalog;
use std::alloc::Global;

/// An end of a block's candidates: the place of its alias, and the types that a vertex may have there.
#[derive(Drop)]
pub struct End {
    pub alias: Option<u32>,
    pub types: List<u32>,
}

/// The end at which candidates begin, and the one to which they lead.
#[derive(Drop)]
pub struct Ends {
    pub source: End,
    pub target: End,
}

impl End {
    /// A vertex under the alias of this end, if it has one. Takes no memory.
    pub fn alias(&self, vertex: u32) -> Option<Alias<'_>>
        ensures { option_map alias_of result ≡ end_things self.entry.now vertex }
    {
        match self.alias {
            Some(place) => Some(Alias {
                place,
                is: Bound::Vertex(self.types.as_slice(), vertex),
            }),
            None => None,
        }
    }
}

/// Whether the selected alias is that of the target.
pub fn selects_target(block: &Block) -> bool
    ensures { result ≡ is_alias same (target_alias (view_block block.now).walk) (view_block block.now).selected }
{
    match target_place(&block.walk) {
        Some(place) => place == block.selected,
        None => false,
    }
}

/// The place of the target's alias: that of a hop, or of a path's last step.
fn target_place(walk: &Walk) -> Option<u32>
    ensures { option_map Place result ≡ target_alias (view_walk walk.now) }
{
    match walk {
        Walk::Nowhere => None,
        Walk::Hop(hop) => hop.target_alias,
        Walk::Path(steps) => last_place(steps.as_slice()),
    }
}

fn last_place(steps: &[PathStep]) -> Option<u32>
    ensures { option_map Place result ≡ target_alias (plain.Path (map view_path_step steps.now)) }
{
    match steps.last() {
        None => None,
        Some(last) => last.target_alias,
    }
}

/// Both ends of a block.
#[tactic(auto, using(crate::proofs::EndLemmas::end_laws))]
pub fn ends_of(
    alloc: Global,
    block: &Block,
    catalog: &Catalog,
    plan: &Plan,
    things: &[Option<Thing>],
) -> Result<Ends, OutOfMemory>
    ensures { IfOk result (HasEnds catalog.now plan.now things.now block.now) }
{
    let source = End {
        alias: block.alias,
        types: types_from(alloc, plan, things, block.source)?,
    };
    let target = End {
        alias: target_place(&block.walk),
        types: end_types(alloc, catalog, plan, &block.walk)?,
    };
    Ok(Ends { source, target })
}

/// A copy of an end as the source, and a target without an alias.
pub fn as_source(alloc: Global, end: &End) -> Result<Ends, OutOfMemory>
    ensures { IfOk result (λ ends. ends ≡ as_source end.now) }
{
    let types = List::from_slice(alloc, end.types.as_slice())?;
    Ok(Ends {
        source: End {
            alias: end.alias,
            types,
        },
        target: End {
            alias: None,
            types: List::new(alloc),
        },
    })
}
