// Resolves the accumulators of WHERE once per block.
ghost use Rattle.std.specs.Prelude.{◌≡◌, IfSome, Some};
ghost use Rattle.std.specs.Option.{option_map};
ghost use Rattle.gq_tree.specs.Tree as tree;
ghost use Rattle.gq_rules_calendar.specs.Gregorian.{gregorian};
ghost use Rattle.gq_rules_meaning.specs.Answers.{Gives};
ghost use Rattle.gq_rules_meaning.specs.Blocks.{passes};
ghost use Rattle.gq_plan_ir.specs.ExprView.{view, view_parts};
ghost use Rattle.gq_exec_contribute.specs.Columns.{IsColumn};
ghost use Rattle.gq_exec_contribute.specs.Filters.{AreResolved, IsEnd, IsEndCell, IsEndOf, IsFilter, IsPartOf, StandsAtEnd, end_tree, end_vertex, filter_tree};
ghost use Rattle.gq_exec_contribute.specs.Prepared.{AreFound, AreIn, IsInt, IsTruth, sees, sees_in};

use crate::cells::{Cells, int_in, target_in, truth_in};
use crate::columns::{Column, listed_int, listed_truth};
use crate::leaves::Leaves;
use crate::names::is_at;
use crate::truths::{ints_related, passes};
use gq_eval_context::BlockContext;
use gq_eval_operand::nots;
use gq_frame::Accums;
use gq_graph::Candidate;
use gq_nest::Content;
use gq_plan_ir::{Behind, Expr};
use gq_tree::CmpSign;
use std::alloc::Global;

/// An accumulator of a slot that is attached to an end of a candidate.
#[derive(Clone, Copy)]
pub struct EndCell {
    /// The place of the end's alias.
    pub place: u32,
    pub slot: u32,

    /// Whether the end is the target; else it is the source.
    pub is_target: bool,
    pub cells: Cells,
}

/// A condition whose accumulators are resolved.
#[derive(Clone, Copy)]
pub enum Filter {
    /// A comparison of two INTs.
    Compared(EndCell, CmpSign, EndCell),

    /// A truth.
    Held(EndCell),

    /// A truth behind so many NOTs.
    NotHeld(usize, EndCell),
}

/// Resolves the condition of a block, if it is of such a form.
pub fn filter_of(filter: &Option<Expr>, leaves: &Leaves<'_>) -> Option<Filter>
    ensures { IfSome result (IsFilter leaves.now (option_map view filter.now)) }
{
    match filter {
        None => None,
        Some(expr) => resolved(expr, leaves),
    }
}

/// Resolves a condition.
fn resolved(expr: &Expr, leaves: &Leaves<'_>) -> Option<Filter>
    ensures { IfSome result (IsFilter leaves.now (Some (view expr.now))) }
{
    match expr {
        Expr::Cmp(left, sign, right) => compared_of(left.get(), *sign, right.get(), leaves),
        Expr::Not(count, operand) => match end_cell(operand.get(), leaves) {
            Some(at) => Some(Filter::NotHeld(*count, at)),
            None => None,
        },
        Expr::Post(first, parts) => match end_behind(first.get(), parts.as_slice(), leaves) {
            Some(at) => Some(Filter::Held(at)),
            None => None,
        },
        _ => None,
    }
}

/// Resolves a comparison.
fn compared_of(left: &Expr, sign: CmpSign, right: &Expr, leaves: &Leaves<'_>) -> Option<Filter>
    ensures { IfSome result (IsFilter leaves.now (Some (tree.Cmp (view left.now) sign (view right.now)))) }
{
    match end_cell(left, leaves) {
        None => None,
        Some(left) => match end_cell(right, leaves) {
            None => None,
            Some(right) => Some(Filter::Compared(left, sign, right)),
        },
    }
}

/// Resolves an attached accumulator of an end.
fn end_cell(expr: &Expr, leaves: &Leaves<'_>) -> Option<EndCell>
    ensures { IfSome result (IsEndOf leaves.now (view expr.now)) }
{
    match expr {
        Expr::Post(first, parts) => end_behind(first.get(), parts.as_slice(), leaves),
        _ => None,
    }
}

/// Resolves the accumulator that a single part attaches to a name.
fn end_behind(first: &Expr, parts: &[Behind], leaves: &Leaves<'_>) -> Option<EndCell>
    ensures { IfSome result (IsEndOf leaves.now (tree.Post (view first.now) (view_parts parts.now))) }
{
    match first {
        Expr::Name(place) => match parts {
            [part] => end_part(part, leaves, *place),
            [] | [_, _, ..] => None,
        },
        _ => None,
    }
}

/// Resolves the accumulator that a part attaches to the name at a place.
fn end_part(part: &Behind, leaves: &Leaves<'_>, place: u32) -> Option<EndCell>
    ensures { IfSome result (IsPartOf leaves.now place part.now) }
{
    match part {
        Behind::Attached(slot) => match end_named(leaves, place) {
            None => None,
            Some(is_target) => match leaves.cells.get(*slot as usize) {
                None => None,
                Some(cells) => Some(EndCell {
                    place,
                    slot: *slot,
                    is_target,
                    cells: *cells,
                }),
            },
        },
        _ => None,
    }
}

/// The end that a name is the alias of: whether it is the target.
#[tactic(auto, using(crate::proofs::FilterLemmas::end_laws))]
fn end_named(leaves: &Leaves<'_>, place: u32) -> Option<bool>
    ensures { IfSome result (IsEnd leaves.now place) }
{
    if is_at(leaves.ends.target.alias, place) {
        return Some(true);
    }
    if is_at(leaves.edge, place) {
        return None;
    }
    if is_at(leaves.ends.source.alias, place) {
        return Some(false);
    }
    None
}

/// Whether a candidate passes WHERE, with the condition resolved if it could be; `None` if that can't be read. What the
/// column has is read there. Memory is freed before it returns.
pub fn passes_by(
    filter: &Option<Filter>,
    expr: &Option<Expr>,
    alloc: Global,
    over: &BlockContext<'_>,
    leaves: &Leaves<'_>,
    column: &Column,
    c: &Candidate,
) -> Option<bool>
    requires found { AreFound over.now leaves.now }
    requires column { IsColumn over.now.frame.accums column.now }
    requires resolved { IfSome filter.now (IsFilter leaves.now (option_map view expr.now)) }
    ensures { IfSome result (λ b. passes (sees gregorian over.now leaves.now c.now) (option_map view expr.now) ≡ Gives b) }
{
    match filter {
        None => passes(expr, alloc, over, leaves, c),
        Some(filter) => match decided(filter, over, leaves, &over.frame.accums, column, c) {
            Some(holds) => Some(holds),
            None => passes(expr, alloc, over, leaves, c),
        },
    }
}

/// Whether a resolved condition holds for a candidate.
fn decided(
    filter: &Filter,
    over: &BlockContext<'_>,
    leaves: &Leaves<'_>,
    accums: &Accums,
    column: &Column,
    c: &Candidate,
) -> Option<bool>
    requires found { AreIn accums.now leaves.now }
    requires column { IsColumn accums.now column.now }
    requires ends { AreResolved leaves.now filter.now }
    ensures { IfSome result (IsTruth (sees_in gregorian over.now leaves.now accums.now c.now) (filter_tree filter.now)) }
{
    match filter {
        Filter::Compared(left, sign, right) => {
            compared_ends(left, *sign, right, over, leaves, accums, column, c)
        }
        Filter::Held(at) => end_truth(at, over, leaves, accums, column, c),
        Filter::NotHeld(count, at) => match end_truth(at, over, leaves, accums, column, c) {
            Some(holds) => Some(nots(*count, holds)),
            None => None,
        },
    }
}

/// Compares the INTs of two accumulators.
#[tactic(auto, using(crate::proofs::TruthLemmas::compared_laws))]
fn compared_ends(
    left: &EndCell,
    sign: CmpSign,
    right: &EndCell,
    over: &BlockContext<'_>,
    leaves: &Leaves<'_>,
    accums: &Accums,
    column: &Column,
    c: &Candidate,
) -> Option<bool>
    requires found { AreIn accums.now leaves.now }
    requires column { IsColumn accums.now column.now }
    requires left { IsEndCell leaves.now left.now }
    requires right { IsEndCell leaves.now right.now }
    ensures { IfSome result (IsTruth (sees_in gregorian over.now leaves.now accums.now c.now) (tree.Cmp (end_tree left.now) sign (end_tree right.now))) }
{
    match end_int(left, over, leaves, accums, column, c) {
        Some(x) => match end_int(right, over, leaves, accums, column, c) {
            Some(y) => Some(ints_related(sign, x, y)),
            None => None,
        },
        None => None,
    }
}

/// The INT of an accumulator of an end.
fn end_int(
    at: &EndCell,
    over: &BlockContext<'_>,
    leaves: &Leaves<'_>,
    accums: &Accums,
    column: &Column,
    c: &Candidate,
) -> Option<i64>
    requires found { AreIn accums.now leaves.now }
    requires column { IsColumn accums.now column.now }
    requires at { IsEndCell leaves.now at.now }
    ensures { IfSome result (IsInt (sees_in gregorian over.now leaves.now accums.now c.now) (end_tree at.now)) }
{
    match listed_int(column, at, c) {
        Some(x) => Some(x),
        None => match end_content(at, leaves, accums, c) {
            Some(content) => int_in(content),
            None => None,
        },
    }
}

/// The truth of an accumulator of an end.
fn end_truth(
    at: &EndCell,
    over: &BlockContext<'_>,
    leaves: &Leaves<'_>,
    accums: &Accums,
    column: &Column,
    c: &Candidate,
) -> Option<bool>
    requires found { AreIn accums.now leaves.now }
    requires column { IsColumn accums.now column.now }
    requires at { IsEndCell leaves.now at.now }
    ensures { IfSome result (IsTruth (sees_in gregorian over.now leaves.now accums.now c.now) (end_tree at.now)) }
{
    match listed_truth(column, at, c) {
        Some(truth) => Some(truth),
        None => match end_content(at, leaves, accums, c) {
            Some(content) => truth_in(content),
            None => None,
        },
    }
}

/// The content of an accumulator of an end.
fn end_content<'a>(
    at: &EndCell,
    leaves: &Leaves<'_>,
    accums: &'a Accums,
    c: &Candidate,
) -> Option<&'a Content>
    requires found { AreIn accums.now leaves.now }
    requires at { IsEndCell leaves.now at.now }
    ensures { IfSome result (λ content. StandsAtEnd accums.entry.now at.now c.now content.now) }
{
    match end_vertex(at.is_target, c) {
        None => None,
        Some(vertex) => match target_in(&at.cells, vertex) {
            None => None,
            Some(target) => match accums.contents.get(target as usize) {
                None => None,
                Some(content) => Some(content),
            },
        },
    }
}

/// The vertex at an end of a candidate.
pub(crate) fn end_vertex(is_target: bool, c: &Candidate) -> Option<u32>
    ensures { result ≡ end_vertex is_target c.now }
{
    if is_target { c.target } else { Some(c.source) }
}
