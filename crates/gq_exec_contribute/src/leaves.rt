// Resolves names and accumulators once per block.
ghost use Rattle.std.specs.Prelude.{◌≡◌, IfOk};
ghost use Rattle.std.specs.Option.{option_map};
ghost use Rattle.gq_rules_typing.specs.Patterns.{edge_alias};
ghost use Rattle.gq_plan_ir.specs.BlockView.{view_walk};
ghost use Rattle.gq_plan_ir.specs.Reference.{Place};
ghost use Rattle.gq_exec_contribute.specs.Prepared.{AreAllCells};

use crate::aliases::edge_place;
use crate::cells::{Cells, cells_of};
use gq_base::{List, OutOfMemory};
use gq_exec_source::Ends;
use gq_frame::Slots;
use gq_plan_ir::Walk;
use std::alloc::Global;

/// The resolved names and accumulators of a block's expressions.
#[derive(Drop)]
pub struct Leaves<'b> {
    pub ends: &'b Ends,

    /// The place of the edge's alias.
    pub edge: Option<u32>,

    /// The cells of each slot, by slot number.
    pub cells: List<Cells>,
}

/// Resolves them for a block with this walk and these ends, over accumulators of these slots.
pub fn leaves_of<'b>(
    alloc: Global,
    slots: &Slots,
    walk: &Walk,
    ends: &'b Ends,
) -> Result<Leaves<'b>, OutOfMemory>
    ensures ends { IfOk result (λ l. l.ends.now ≡ ends.entry.now) }
    ensures edge { IfOk result (λ l. option_map Place l.edge ≡ edge_alias (view_walk walk.now)) }
    ensures cells { IfOk result (λ l. AreAllCells slots.now l.cells) }
{
    Ok(Leaves {
        ends,
        edge: edge_place(walk),
        cells: cells_of(alloc, slots)?,
    })
}
