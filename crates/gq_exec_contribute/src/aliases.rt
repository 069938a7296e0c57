// Finds the place of the edge's alias.
ghost use Rattle.std.specs.Prelude.{◌≡◌, map};
ghost use Rattle.std.specs.Option.{option_map};
ghost use Rattle.gq_rules_typing.specs.Patterns.{edge_alias};
ghost use Rattle.gq_rules_typing.specs.Selecting as plain;
ghost use Rattle.gq_plan_ir.specs.BlockView.{view_path_step, view_walk};
ghost use Rattle.gq_plan_ir.specs.Reference.{Place};

use gq_plan_ir::{PathStep, Walk};

/// The place of the edge's alias: that of a hop, or of a path's last step.
pub(crate) fn edge_place(walk: &Walk) -> Option<u32>
    ensures { option_map Place result ≡ edge_alias (view_walk walk.now) }
{
    match walk {
        Walk::Nowhere => None,
        Walk::Hop(hop) => hop.edge_alias,
        Walk::Path(steps) => last_place(steps.as_slice()),
    }
}

#[tactic(auto, using(crate::proofs::EdgeLemmas::last_laws))]
fn last_place(steps: &[PathStep]) -> Option<u32>
    ensures { option_map Place result ≡ edge_alias (plain.Path (map view_path_step steps.now)) }
{
    match steps.last() {
        None => None,
        Some(step) => step.edge_alias,
    }
}
