// Parameters. They take places in reverse order.
ghost use Rattle.std.specs.Prelude.{◌≡◌, ◌≢◌, IfOk, IfErr, [], map, reverse};
ghost use Rattle.gq_rules_typing.specs.StatementViews.{view_base, view_parameter};
ghost use Rattle.gq_scope.specs.Held.{sorts_in};
ghost use Rattle.gq_plan_expr.specs.Resolved.{Answers};
ghost use Rattle.gq_plan_expr.specs.declared.fault.PlanFault.TheVariants as fault;
ghost use Rattle.gq_plan_stmt.specs.Parts.{resolved_base};
ghost use Rattle.gq_plan_expr.specs.Found.{globals_of};
ghost use Rattle.gq_plan_laws.specs.PlannedLaws.{no_names, ParametersPlanned};
ghost use Rattle.gq_plan.specs.Unplanned.{NoParameters};

use gq_base::{List, OutOfMemory};
use gq_plan_expr::{CatalogNames, PlanFault};
use gq_plan_ir::{Declared, Parameter};
use gq_plan_stmt::{add_name, plan_base};
use gq_scope::{Places, Scope};
use gq_tree::BaseTree;
use std::alloc::Global;

/// Reverses the parameters.
fn turned(alloc: Global, parameters: &[Parameter]) -> Result<List<Parameter>, OutOfMemory>
    ensures { IfOk result (λ list. list ≡ reverse parameters.now) }
{
    let list = parameters.iter().rev().copied().collect(alloc)?;
    Ok(List::from_vec(list))
}

/// Returns the type of a parameter, before anything else is declared.
#[tactic(auto, unfolding(gq_plan_expr::specs::Names::globals_in))]
fn base(alloc: Global, scope: &Scope<'_>, tree: &BaseTree) -> Result<Declared, PlanFault>
    ensures { Answers (resolved_base (globals_of (sorts_in scope.now) [] no_names) (view_base tree.now)) result }
{
    let slots = Places::new(alloc);
    let found = CatalogNames {
        scope,
        tuples: &[],
        slots: &slots,
    };
    plan_base(&found, tree)
}

/// Plans the parameters of a query, which come into view.
#[tactic(auto, using(crate::proofs::ParameterLemmas::parameter_laws))]
pub(crate) fn parameters(
    alloc: Global,
    scope: &Scope<'_>,
    places: &mut Places,
    trees: &[gq_tree::ParameterTree],
) -> Result<List<Parameter>, PlanFault>
    requires { places.old ≡ no_names }
    ensures planned { IfOk result (λ list. ParametersPlanned (sorts_in scope.now) (map view_parameter trees.now) list places.new) }
    ensures unknown { IfErr result (λ e. e ≢ fault.OutOfMemory → NoParameters (sorts_in scope.now) (map view_parameter trees.now)) }
{
    let mut planned = List::new(alloc);
    let mut left = trees.len();
    while left > 0 {
        left -= 1;
        let tree = &trees[left];
        let base = base(alloc, scope, &tree.base)?;
        let place = add_name(places, tree.name.as_str())?;
        planned.push(Parameter { base, place })?;
    }
    Ok(turned(alloc, planned.as_slice())?)
}
