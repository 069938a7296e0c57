// Definitions, in order: each sees what is declared before it.
ghost use Rattle.std.specs.Prelude.{◌≡◌, ◌≢◌, IfOk, IfErr, [], ◌∷◌, map};
ghost use Rattle.gq_rules_typing.specs.Statements.{Accums};
ghost use Rattle.gq_rules_typing.specs.StatementViews.{view_accum, view_definition, view_kind};
ghost use Rattle.gq_scope.specs.Held.{sorts_in};
ghost use Rattle.gq_plan_expr.specs.declared.fault.PlanFault.TheVariants as fault;
ghost use Rattle.gq_plan_laws.specs.Planned.{DefinitionsPlanned};
ghost use Rattle.gq_plan.specs.Heading.{IsScoped, heads_of};
ghost use Rattle.gq_plan.specs.Unplanned.{NoDefinition, NoDefinitions};

use crate::accums::{accums, kind};
use crate::tuples::tuple_type;
use gq_base::List;
use gq_plan_expr::{NamedTupleType, PlanFault};
use gq_plan_ir::Definition;
use gq_scope::{Places, Scope};
use gq_tree::{AccumTree, KindTree};
use std::alloc::Global;

/// Plans accumulators of a kind.
#[tactic(auto, using(crate::proofs::HeadLemmas::kind_laws))]
fn of_kind(
    alloc: Global,
    scope: &Scope<'_>,
    tuples: &[NamedTupleType],
    slots: &mut Places,
    places: &Places,
    tree: &KindTree,
    trees: &[AccumTree],
) -> Result<Definition, PlanFault>
    requires { IsScoped (sorts_in scope.now) tuples.now scope.now }
    ensures planned { IfOk result (λ e. DefinitionsPlanned (sorts_in scope.now) places.now (heads_of tuples.now slots.old)
        (Accums (view_kind tree.now) (map view_accum trees.now) ∷ []) (e ∷ []) (heads_of tuples.now slots.new)) }
    ensures unknown { IfErr result (λ e. e ≢ fault.OutOfMemory
        → NoDefinition (sorts_in scope.now) places.now (heads_of tuples.now slots.old) (Accums (view_kind tree.now) (map view_accum trees.now))) }
{
    let kind = kind(alloc, scope, tree)?;
    let planned = accums(alloc, scope, tuples, slots, places, trees)?;
    Ok(Definition::Accums(kind, planned))
}

fn definition(
    alloc: Global,
    scope: &mut Scope<'_>,
    tuples: &mut List<NamedTupleType>,
    slots: &mut Places,
    places: &Places,
    tree: &gq_tree::DefinitionTree,
) -> Result<Definition, PlanFault>
    requires { IsScoped (sorts_in scope.old) tuples.old scope.old }
    ensures planned { IfOk result (λ e. DefinitionsPlanned (sorts_in scope.old) places.now (heads_of tuples.old slots.old)
        (view_definition tree.now ∷ []) (e ∷ []) (heads_of tuples.new slots.new)) }
    ensures scoped { IfOk result (λ _. IsScoped (sorts_in scope.old) tuples.new scope.new) }
    ensures unknown { IfErr result (λ e. e ≢ fault.OutOfMemory
        → NoDefinition (sorts_in scope.old) places.now (heads_of tuples.old slots.old) (view_definition tree.now)) }
{
    match tree {
        gq_tree::DefinitionTree::Tuple(fields, name) => {
            tuple_type(
                alloc,
                scope,
                tuples,
                slots,
                fields.as_slice(),
                name.as_str(),
            )
        }
        gq_tree::DefinitionTree::Accums(tree, list) => {
            of_kind(
                alloc,
                scope,
                tuples.as_slice(),
                slots,
                places,
                tree,
                list.as_slice(),
            )
        }
    }
}

/// Plans the definitions of a query. Their tuple types are added to the scope and to `tuples`, and their accumulators
/// to `slots`.
#[tactic(auto, using(crate::proofs::HeadLemmas::definition_laws))]
pub(crate) fn definitions(
    alloc: Global,
    scope: &mut Scope<'_>,
    tuples: &mut List<NamedTupleType>,
    slots: &mut Places,
    places: &Places,
    trees: &[gq_tree::DefinitionTree],
) -> Result<List<Definition>, PlanFault>
    requires { IsScoped (sorts_in scope.old) tuples.old scope.old }
    ensures planned { IfOk result (λ es. DefinitionsPlanned (sorts_in scope.old) places.now (heads_of tuples.old slots.old)
        (map view_definition trees.now) es (heads_of tuples.new slots.new)) }
    ensures scoped { IfOk result (λ _. IsScoped (sorts_in scope.old) tuples.new scope.new) }
    ensures unknown { IfErr result (λ e. e ≢ fault.OutOfMemory
        → NoDefinitions (sorts_in scope.old) places.now (heads_of tuples.old slots.old) (map view_definition trees.now)) }
{
    let mut planned = List::new(alloc);
    for tree in trees {
        let one = definition(alloc, scope, tuples, slots, places, tree)?;
        planned.push(one)?;
    }
    Ok(planned)
}
