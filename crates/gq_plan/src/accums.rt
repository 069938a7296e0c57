// Accumulators with their initial values.
ghost use Rattle.std.specs.Prelude.{◌≡◌, ◌≢◌, IfOk, IfErr, Ok, [], map};
ghost use Rattle.gq_value.specs.AccumViews.{accum_of};
ghost use Rattle.gq_scope.specs.Named.{with_name};
ghost use Rattle.gq_rules_typing.specs.KindTypes.{kind_written as kind_meant};
ghost use Rattle.gq_rules_typing.specs.StatementViews.{view_accum, view_kind};
ghost use Rattle.gq_scope.specs.Held.{scope_in, sorts_in};
ghost use Rattle.gq_check_from.specs.declared.fault.CheckFault.TheVariants as check;
ghost use Rattle.gq_plan_expr.specs.declared.fault.PlanFault.TheVariants as fault;
ghost use Rattle.gq_plan_laws.specs.Planned.{AccumPlanned, AccumsPlanned};
ghost use Rattle.gq_plan.specs.Heading.{heads_of};
ghost use Rattle.gq_plan.specs.Unplanned.{Fails, NoAccum, NoAccums};

use crate::names::add_slot;
use gq_base::List;
use gq_check_decls::kind_written;
use gq_check_from::CheckFault;
use gq_plan_expr::{CatalogNames, NamedTupleType, PlanFault};
use gq_plan_ir::Accum;
use gq_plan_stmt::plan_opening;
use gq_scope::{Places, Scope};
use gq_tree::{AccumTree, KindTree};
use gq_value::{Kind, Txt};
use std::alloc::Global;

/// Returns `OutOfMemory`, or `Unknown` if a rule refuses something.
pub(crate) fn fault_of(refusal: &CheckFault) -> PlanFault
    ensures { result ≢ fault.OutOfMemory → refusal.now ≢ check.OutOfMemory }
{
    match refusal {
        CheckFault::OutOfMemory => PlanFault::OutOfMemory,
        CheckFault::Mismatch | CheckFault::NotAllowedHere => PlanFault::Unknown,
        CheckFault::TwoAliases | CheckFault::TooMany => PlanFault::Unknown,
        CheckFault::UnknownName(_) | CheckFault::NoAttribute(_) => PlanFault::Unknown,
        CheckFault::OrderDependent(_) | CheckFault::WiderSet(_) => PlanFault::Unknown,
        CheckFault::BadKind(_) | CheckFault::NameTwice(_) => PlanFault::Unknown,
    }
}

/// Returns the kind of accumulators.
#[tactic(auto, using(crate::proofs::FailLemmas::fail_laws))]
pub(crate) fn kind(alloc: Global, scope: &Scope<'_>, tree: &KindTree) -> Result<Kind, PlanFault>
    ensures planned { IfOk result (λ kind. kind_meant (scope_in scope.now) [] (view_kind tree.now) ≡ Ok (accum_of kind)) }
    ensures unknown { IfErr result (λ e. e ≢ fault.OutOfMemory → Fails (kind_meant (scope_in scope.now) [] (view_kind tree.now))) }
{
    match kind_written(alloc, scope, "", tree) {
        Ok(kind) => Ok(kind),
        Err(refusal) => Err(fault_of(&refusal)),
    }
}

/// Plans an accumulator; its initial value sees what is declared before it.
#[tactic(auto, using(crate::proofs::FailLemmas::accum_laws), unfolding(gq_plan_expr::specs::Names::globals_in))]
fn accum(
    alloc: Global,
    scope: &Scope<'_>,
    tuples: &[NamedTupleType],
    slots: &mut Places,
    places: &Places,
    tree: &AccumTree,
) -> Result<Accum, PlanFault>
    ensures planned { IfOk result (λ b. AccumPlanned (sorts_in scope.now) places.now (heads_of tuples.now slots.old) (view_accum tree.now) b) }
    ensures declared { IfOk result (λ _. slots.new ≡ with_name slots.old tree.now.name tree.now.attached) }
    ensures unknown { IfErr result (λ e. e ≢ fault.OutOfMemory → NoAccum (sorts_in scope.now) places.now (heads_of tuples.now slots.old) (view_accum tree.now)) }
{
    let found = CatalogNames {
        scope,
        tuples,
        slots: &*slots,
    };
    let opening = plan_opening(alloc, &found, places, tree.opening.as_ref())?;
    let name = Txt::of(alloc, tree.name.as_str())?;
    let slot = add_slot(slots, tree.name.as_str(), tree.attached)?;
    Ok(Accum {
        attached: tree.attached,
        slot,
        name,
        opening,
    })
}

/// Plans accumulators of one kind, in order.
#[tactic(auto, using(crate::proofs::HeadLemmas::accum_laws))]
pub(crate) fn accums(
    alloc: Global,
    scope: &Scope<'_>,
    tuples: &[NamedTupleType],
    slots: &mut Places,
    places: &Places,
    trees: &[AccumTree],
) -> Result<List<Accum>, PlanFault>
    ensures planned { IfOk result (λ bs. AccumsPlanned (sorts_in scope.now) places.now (heads_of tuples.now slots.old) (map view_accum trees.now) bs
        (heads_of tuples.now slots.new)) }
    ensures unknown { IfErr result (λ e. e ≢ fault.OutOfMemory
        → NoAccums (sorts_in scope.now) places.now (heads_of tuples.now slots.old) (map view_accum trees.now)) }
{
    let mut planned = List::new(alloc);
    for tree in trees {
        let one = accum(alloc, scope, tuples, slots, places, tree)?;
        planned.push(one)?;
    }
    Ok(planned)
}
