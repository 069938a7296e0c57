// Searches statements and their inputs for a name.
ghost use Rattle.std.specs.Prelude.{◌≡◌, map};
ghost use Rattle.gq_rules_typing.specs.Mentions.{in_input, in_inputs, in_change, in_act, in_acts};
ghost use Rattle.gq_rules_typing.specs.SelectViews.{inputs_of};
ghost use Rattle.gq_plan_ir.specs.BlockView.{view_feed, view_change, view_act, view_acts};
ghost use Rattle.gq_exec_post.specs.Naming.{is_place};

use crate::exprs::{any_names, expr_names};
use gq_plan_ir::{Act, Change, Feed};

/// Whether a statement names a place: as the alias whose accumulator it changes, or within its expressions.
#[cycle(act)]
#[tactic(auto, using(gq_plan_ir::proofs::ViewLaws::step_laws, crate::proofs::NamingLemmas::choice_next))]
pub fn act_names(act: &Act, place: u32) -> bool
    ensures { result ≡ in_act (is_place place) (view_act act.now) }
{
    match act {
        Act::Attached(alias, _, change) => place == *alias || change_names(change, place),
        Act::Global(_, change) => change_names(change, place),
        Act::If(branches, others) => {
            for branch in branches.as_slice() {
                if expr_names(&branch.0, place) || acts_name(branch.1.as_slice(), place) {
                    return true;
                }
            }
            match others {
                Some(others) => acts_name(others.as_slice(), place),
                None => false,
            }
        }
    }
}

/// Whether one of the statements names a place.
#[cycle(act)]
#[tactic(auto, using(crate::proofs::NamingLemmas::acts_laws))]
fn acts_name(acts: &[Act], place: u32) -> bool
    ensures { result ≡ in_acts (is_place place) (view_acts acts.now) }
{
    for act in acts {
        if act_names(act, place) {
            return true;
        }
    }
    false
}

/// Whether a change names a place.
fn change_names(change: &Change, place: u32) -> bool
    ensures { result ≡ in_change (is_place place) (view_change change.now) }
{
    match change {
        Change::Feed(feed) => feed_names(feed, place),
        Change::Set(expr) => expr_names(expr, place),
    }
}

/// Whether an input names a place.
#[cycle(feed)]
#[tactic(auto, using(gq_plan_ir::proofs::ViewLaws::step_laws))]
fn feed_names(feed: &Feed, place: u32) -> bool
    ensures { result ≡ in_input (is_place place) (view_feed feed.now) }
{
    match feed {
        Feed::One(expr) => expr_names(expr, place),
        Feed::Keyed(keys, feeds) => {
            any_names(keys.as_slice(), place) || feeds_name(feeds.as_slice(), place)
        }
    }
}

/// Whether one of the inputs names a place.
#[cycle(feed)]
#[tactic(auto, using(crate::proofs::NamingLemmas::feeds_laws))]
fn feeds_name(feeds: &[Feed], place: u32) -> bool
    ensures { result ≡ in_inputs (is_place place) (inputs_of (map view_feed feeds.now)) }
{
    for feed in feeds {
        if feed_names(feed, place) {
            return true;
        }
    }
    false
}
