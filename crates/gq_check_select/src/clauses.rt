// The clauses after FROM, each at its place.
ghost use Rattle.std.specs.Prelude.{◌≡◌, true, false, IfOk};
ghost use Rattle.std.specs.Option.{option_copied, option_map};
ghost use Rattle.gq_tree.specs.View.{view};
ghost use Rattle.gq_rules_typing.specs.Judging.{each_judged};
ghost use Rattle.gq_rules_typing.specs.ExpressionTypes as forms;
ghost use Rattle.gq_rules_typing.specs.Scopes as typing;
ghost use Rattle.gq_rules_typing.specs.Scopes.{names_at};
ghost use Rattle.gq_rules_typing.specs.SelectViews.{view_acts_if, view_order, view_select};
ghost use Rattle.gq_rules_typing.specs.ActTypes as acts;
ghost use Rattle.gq_rules_typing.specs.SelectTypes as spec;
ghost use Rattle.gq_scope.specs.Held.{scope_in, names_in};
ghost use Rattle.gq_scope.specs.Views.{base_is, typed_is};
ghost use Rattle.gq_check_from.specs.Faults.{Judges};
ghost use Rattle.gq_check_from.specs.Walks.{passes};
ghost use Rattle.gq_check_select.specs.Selects as selects;

use crate::acts::{accum, post_accum};
use gq_base::List;
use gq_check_from::{CheckFault, target_alias, text_of};
use gq_scope::{Base, Place, Scope, Typed, matched};
use gq_tree::{ActTree, Node, SelectTree};
use gq_type::{condition, is_number, is_numeric, number, type_of};
use std::alloc::Global;

// ---- optional expressions, at the scope's place

fn condition_if(alloc: Global, scope: &Scope<'_>, node: &Option<Node>) -> Result<(), CheckFault>
    ensures { Judges (λ _. true) (spec.optional (forms.condition (names_in scope.now)) (option_map view node.now)) result }
{
    match node {
        None => Ok(()),
        Some(node) => {
            condition(alloc, scope, node)?;
            Ok(())
        }
    }
}

fn number_if(alloc: Global, scope: &Scope<'_>, node: &Option<Node>) -> Result<(), CheckFault>
    ensures { Judges (λ _. true) (spec.optional (forms.number (names_in scope.now)) (option_map view node.now)) result }
{
    match node {
        None => Ok(()),
        Some(node) => {
            number(alloc, scope, node)?;
            Ok(())
        }
    }
}

// ---- keys of an order

/// Whether a type can be a key of an order: a number, a STRING or an average.
fn is_sortable(x: Typed<'_>) -> bool
    ensures { result ≡ spec.is_sortable (typed_is x.entry) }
{
    match x {
        Typed::Of(base) => is_sortable_base(base),
        Typed::Average | Typed::Whole(_) | Typed::GroupRow(_) | Typed::AliasOf(_) => is_numeric(x),
        Typed::EdgeOf(_) | Typed::SetOf(_) | Typed::MemberOf(_) => is_numeric(x),
    }
}

fn is_sortable_base(base: Base<'_>) -> bool
    ensures { result ≡ selects.is_sortable_base (base_is base.entry) }
{
    match base {
        Base::Text => true,
        Base::Int | Base::UInt | Base::Bool | Base::Time => is_number(base),
        Base::AnyVertex | Base::VertexOf(_) | Base::Tuple(_, _) => is_number(base),
    }
}

fn sort_key(alloc: Global, scope: &Scope<'_>, node: &Node) -> Result<(), CheckFault>
    ensures { Judges (λ _. true) (selects.sortable (names_in scope.now) (view node.now)) result }
{
    let x = type_of(alloc, scope, node)?;
    Ok(matched(is_sortable(x))?)
}

fn each_key(alloc: Global, scope: &Scope<'_>, keys: &[(Node, bool)]) -> Result<(), CheckFault>
    ensures { Judges (λ _. true) (passes (each_judged (spec.sort_key (names_in scope.now)) (selects.view_keys keys.now))) result }
{
    for key in keys {
        sort_key(alloc, scope, &key.0)?;
    }
    Ok(())
}

fn sort_keys(
    alloc: Global,
    scope: &Scope<'_>,
    order: &Option<List<(Node, bool)>>,
) -> Result<(), CheckFault>
    ensures { Judges (λ _. true) (passes (each_judged (spec.sort_key (names_in scope.now)) (view_order order.now))) result }
{
    match order {
        None => Ok(()),
        Some(keys) => each_key(alloc, scope, keys.as_slice()),
    }
}

// ---- clauses; each sets the place

/// Checks WHERE.
fn filter(alloc: Global, scope: &mut Scope<'_>, node: &Option<Node>) -> Result<(), CheckFault>
    ensures judged { Judges (λ _. true) (spec.optional (forms.condition (names_at (scope_in scope.old) typing.InBlock)) (option_map view node.now)) result }
    ensures placed { scope.new ≡ record scope.old { place = typing.InBlock } }
{
    scope.put_at(Place::Block);
    condition_if(alloc, scope, node)
}

fn accum_if(
    alloc: Global,
    scope: &Scope<'_>,
    list: &Option<List<ActTree>>,
) -> Result<u32, CheckFault>
    requires { scope.now.place ≡ typing.InBlock }
    ensures { Judges (λ n. n) (acts.typing_acts (scope_in scope.now) false 0 (view_acts_if list.now)) result }
{
    match list {
        None => Ok(0),
        Some(list) => accum(alloc, scope, list.as_slice()),
    }
}

/// Checks ACCUM.
#[tactic(auto, using(crate::proofs::PlaceLemmas::place_laws))]
fn accums(
    alloc: Global,
    scope: &mut Scope<'_>,
    list: &Option<List<ActTree>>,
) -> Result<u32, CheckFault>
    ensures judged { Judges (λ n. n) (acts.typing_acts (scope_in scope.old) false 0 (view_acts_if list.now)) result }
    ensures placed { scope.new ≡ record scope.old { place = typing.InBlock } }
{
    scope.put_at(Place::Block);
    accum_if(alloc, scope, list)
}

fn post_if(
    alloc: Global,
    scope: &Scope<'_>,
    source: Option<&str>,
    target: Option<&str>,
    list: &Option<List<ActTree>>,
) -> Result<u32, CheckFault>
    requires { scope.now.place ≡ typing.InPost }
    ensures { Judges (λ n. n)
        (acts.typing_post (scope_in scope.now) (option_copied source.entry) (option_copied target.entry) 0 (view_acts_if list.now)) result }
{
    match list {
        None => Ok(0),
        Some(list) => post_accum(alloc, scope, source, target, list.as_slice()),
    }
}

/// Checks POST-ACCUM.
#[tactic(auto, using(crate::proofs::PlaceLemmas::place_laws))]
fn posts(
    alloc: Global,
    scope: &mut Scope<'_>,
    source: Option<&str>,
    target: Option<&str>,
    list: &Option<List<ActTree>>,
) -> Result<u32, CheckFault>
    ensures judged { Judges (λ n. n)
        (acts.typing_post (scope_in scope.old) (option_copied source.entry) (option_copied target.entry) 0 (view_acts_if list.now)) result }
    ensures placed { scope.new ≡ record scope.old { place = typing.InPost } }
{
    scope.put_at(Place::Post);
    post_if(alloc, scope, source, target, list)
}

fn tail_here(
    alloc: Global,
    scope: &Scope<'_>,
    having: &Option<Node>,
    order: &Option<List<(Node, bool)>>,
) -> Result<(), CheckFault>
    ensures { Judges (λ _. true) (selects.tail_of (names_in scope.now) (option_map view having.now) (view_order order.now)) result }
{
    condition_if(alloc, scope, having)?;
    sort_keys(alloc, scope, order)
}

/// Checks HAVING and ORDER BY, which may name only the selected alias.
fn tail<'q>(
    alloc: Global,
    scope: &mut Scope<'q>,
    selected: &'q str,
    having: &Option<Node>,
    order: &Option<List<(Node, bool)>>,
) -> Result<(), CheckFault>
    ensures judged { Judges (λ _. true)
        (selects.tail (scope_in scope.old) selected.now (option_map view having.now) (view_order order.now)) result }
    ensures placed { scope.new ≡ record scope.old { place = typing.InTail selected.now } }
{
    scope.put_at(Place::Tail(selected));
    tail_here(alloc, scope, having, order)
}

/// Checks LIMIT.
fn limit(alloc: Global, scope: &mut Scope<'_>, node: &Option<Node>) -> Result<(), CheckFault>
    ensures judged { Judges (λ _. true) (spec.optional (forms.number (names_at (scope_in scope.old) typing.InLimit)) (option_map view node.now)) result }
    ensures placed { scope.new ≡ record scope.old { place = typing.InLimit } }
{
    scope.put_at(Place::Limit);
    number_if(alloc, scope, node)
}

/// Checks WHERE, ACCUM and POST-ACCUM.
#[tactic(auto, using(crate::proofs::PlaceLemmas::place_laws))]
fn changes(alloc: Global, scope: &mut Scope<'_>, query: &SelectTree) -> Result<u32, CheckFault>
    ensures judged { Judges (λ n. n) (selects.changes (scope_in scope.old) (view_select query.now)) result }
    ensures placed { IfOk result (λ _. scope.new ≡ record scope.old { place = typing.InPost }) }
{
    filter(alloc, scope, &query.filter)?;
    accums(alloc, scope, &query.accum)?;
    posts(
        alloc,
        scope,
        text_of(&query.alias),
        target_alias(&query.walk),
        &query.post,
    )
}

/// Checks all clauses after FROM, in order. Then sets the place back to a statement.
#[tactic(auto, using(crate::proofs::PlaceLemmas::place_laws))]
pub(crate) fn clauses<'q>(
    alloc: Global,
    scope: &mut Scope<'q>,
    query: &'q SelectTree,
) -> Result<(), CheckFault>
    ensures judged { Judges (λ _. true) (selects.clauses (scope_in scope.old) (view_select query.now)) result }
    ensures placed { IfOk result (λ _. scope.new ≡ record scope.old { place = typing.InStatement }) }
{
    changes(alloc, scope, query)?;
    tail(
        alloc,
        scope,
        query.selected.as_str(),
        &query.having,
        &query.order,
    )?;
    limit(alloc, scope, &query.limit)?;
    scope.put_at(Place::Statement);
    Ok(())
}
