// Splits statements into phases by their ends.
ghost use Rattle.std.specs.Prelude.{◌≡◌, ◌≤◌, length, map};
ghost use Rattle.gq_plan_ir.specs.BlockView.{view_act};
ghost use Rattle.gq_rules_meaning.specs.Posts.{same_end};
ghost use Rattle.gq_exec_post.specs.Phases.{at_end, run_length, to_target};

use crate::act_mentions::act_names;
use gq_exec_source::{End, Ends};
use gq_plan_ir::Act;

/// Whether a statement is for the target: it names the target's alias, or it names none and the target's is selected.
pub(crate) fn for_target(act: &Act, ends: &Ends, selects: bool) -> bool
    ensures { result ≡ to_target ends.now selects (view_act act.now) }
{
    if names_end(act, &ends.target) {
        true
    } else if names_end(act, &ends.source) {
        false
    } else {
        selects
    }
}

/// Whether a statement names the alias of an end.
fn names_end(act: &Act, end: &End) -> bool
    ensures { result ≡ at_end end.now (view_act act.now) }
{
    match end.alias {
        None => false,
        Some(place) => act_names(act, place),
    }
}

/// The number of leading statements that are for an end.
#[tactic(auto, using(crate::proofs::PhaseLemmas::run_laws))]
pub(crate) fn run_of(acts: &[Act], ends: &Ends, selects: bool, target: bool) -> usize
    ensures told { result ≡ run_length (to_target ends.now selects) target (map view_act acts.now) }
    ensures few { result ≤ length acts.now }
{
    for (place, act) in acts.iter().enumerate() {
        if !is_same(target, for_target(act, ends, selects)) {
            return place;
        }
    }
    acts.len()
}

/// Whether two ends are the same.
fn is_same(first: bool, second: bool) -> bool
    ensures { result ≡ same_end first second }
{
    if first { second } else { !second }
}
