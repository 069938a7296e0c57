// Tuple types.
ghost use Rattle.std.specs.Prelude.{◌≡◌, ◌≢◌, ◌++◌, IfOk, IfErr, Ok, true, [], ◌∷◌, map};
ghost use Rattle.gq_value.specs.AccumViews.{base_of};
ghost use Rattle.gq_rules_typing.specs.KindTypes as kinds;
ghost use Rattle.gq_rules_typing.specs.Scopes as typing;
ghost use Rattle.gq_rules_typing.specs.Statements.{TupleType as a_tuple_type};
ghost use Rattle.gq_rules_typing.specs.StatementViews.{view_base, view_fields};
ghost use Rattle.gq_scope.specs.Held.{fields_of, scope_in, sorts_in};
ghost use Rattle.gq_plan_expr.specs.Resolved.{Answers};
ghost use Rattle.gq_plan_expr.specs.declared.fault.PlanFault.TheVariants as fault;
ghost use Rattle.gq_plan_select.specs.Resolved.{each_resolved};
ghost use Rattle.gq_scope.specs.Named.{Named};
ghost use Rattle.gq_plan_expr.specs.Names.{globals_in};
ghost use Rattle.gq_plan_laws.specs.Planned.{DefinitionsPlanned};
ghost use Rattle.gq_plan.specs.Heading.{IsScoped, heads_of, resolved_field};
ghost use Rattle.gq_plan_laws.specs.Declares.{is_taken, tuple_names};
ghost use Rattle.gq_plan.specs.Unplanned.{Fails, NoDefinition};

use crate::accums::fault_of;
use gq_base::{List, OutOfMemory, narrow};
use gq_check_decls::base_written;
use gq_plan_expr::{CatalogNames, NamedTupleType, PlanFault};
use gq_plan_ir::{Declared, Definition};
use gq_plan_stmt::plan_base;
use gq_scope::{Entry, Places, Scope};
use gq_tree::BaseTree;
use gq_value::{BaseType, Txt};
use std::alloc::Global;

// ---- the fields of the plan

/// Plans a field.
fn planned_field(
    alloc: Global,
    found: &CatalogNames<'_>,
    tree: &(BaseTree, Txt),
) -> Result<(Declared, Txt), PlanFault>
    ensures { Answers (resolved_field (globals_in found.now) (view_base tree.now.0, tree.now.1)) result }
{
    let base = plan_base(found, &tree.0)?;
    let name = Txt::of(alloc, tree.1.as_str())?;
    Ok((base, name))
}

#[tactic(auto, using(gq_plan_expr::proofs::ListLemmas::list_laws))]
fn planned_fields(
    alloc: Global,
    found: &CatalogNames<'_>,
    trees: &[(BaseTree, Txt)],
) -> Result<List<(Declared, Txt)>, PlanFault>
    ensures { Answers (each_resolved (resolved_field (globals_in found.now)) (view_fields trees.now)) result }
{
    let mut planned = List::new(alloc);
    for tree in trees {
        let one = planned_field(alloc, found, tree)?;
        planned.push(one)?;
    }
    Ok(planned)
}

// ---- the fields with their types

/// Returns the type that a field is declared with.
#[tactic(auto, using(crate::proofs::FailLemmas::fail_laws))]
fn field_type(alloc: Global, scope: &Scope<'_>, tree: &BaseTree) -> Result<BaseType, PlanFault>
    ensures typed { IfOk result (λ base. typing.base_written (scope_in scope.now) (view_base tree.now) ≡ Ok (base_of base)) }
    ensures unknown { IfErr result (λ e. e ≢ fault.OutOfMemory → Fails (typing.base_written (scope_in scope.now) (view_base tree.now))) }
{
    match base_written(alloc, scope, tree) {
        Ok(base) => Ok(base),
        Err(refusal) => Err(fault_of(&refusal)),
    }
}

/// Whether one of these fields has the name.
fn stands_in(fields: &[(Txt, BaseType)], name: &str) -> bool
    ensures { result ≡ kinds.stands_in (map (λ f. f.0) fields.now) name.now }
{
    for field in fields {
        if name == field.0.as_str() {
            return true;
        }
    }
    false
}

/// Checks that a name is new among the fields of the type, which has at most 16.
#[tactic(auto, using(crate::proofs::FieldLemmas::name_laws))]
fn own_name(fields: &[(Txt, BaseType)], name: &str) -> Result<(), PlanFault>
    ensures own { IfOk result (λ _. kinds.own_name 16 (map (λ f. f.0) fields.now) name.now ≡ Ok (map (λ f. f.0) fields.now ++ name.now ∷ [])) }
    ensures unknown { IfErr result (λ e. e ≢ fault.OutOfMemory → Fails (kinds.own_name 16 (map (λ f. f.0) fields.now) name.now)) }
{
    if stands_in(fields, name) {
        return Err(PlanFault::Unknown);
    }
    if fields.len() >= 16 {
        return Err(PlanFault::Unknown);
    }
    Ok(())
}

/// Returns the fields of a tuple type, with their types.
#[tactic(auto, using(gq_type::proofs::ArgumentLemmas::all_laws, crate::proofs::FieldLemmas::field_laws, crate::proofs::FieldLemmas::fail_laws))]
fn typed_fields(
    alloc: Global,
    scope: &Scope<'_>,
    trees: &[(BaseTree, Txt)],
) -> Result<List<(Txt, BaseType)>, PlanFault>
    ensures typed { IfOk result (λ fields. kinds.fields_written (scope_in scope.now) 16 [] (view_fields trees.now) ≡ Ok (fields_of fields)) }
    ensures unknown { IfErr result (λ e. e ≢ fault.OutOfMemory → Fails (kinds.fields_written (scope_in scope.now) 16 [] (view_fields trees.now))) }
{
    let mut fields = List::new(alloc);
    for tree in trees {
        own_name(fields.as_slice(), tree.1.as_str())?;
        let base = field_type(alloc, scope, &tree.0)?;
        let name = Txt::of(alloc, tree.1.as_str())?;
        fields.push((name, base))?;
    }
    Ok(fields)
}

/// Returns a copy.
fn copied(alloc: Global, fields: &[(Txt, BaseType)]) -> Result<List<(Txt, BaseType)>, OutOfMemory>
    ensures { IfOk result (λ list. list ≡ fields.now) }
{
    let mut list = List::new(alloc);
    for field in fields {
        let name = Txt::of(alloc, field.0.as_str())?;
        let base = field.1.duplicate(alloc)?;
        list.push((name, base))?;
    }
    Ok(list)
}

// ---- tuple types

/// Adds a tuple type to the scope and to `tuples`.
#[tactic(auto, using(crate::proofs::ScopeLemmas::scope_laws))]
fn declare(
    alloc: Global,
    scope: &mut Scope<'_>,
    tuples: &mut List<NamedTupleType>,
    name: &str,
    fields: List<(Txt, BaseType)>,
) -> Result<(), PlanFault>
    requires { IsScoped (sorts_in scope.old) tuples.old scope.old }
    ensures scoped { IfOk result (λ _. IsScoped (sorts_in scope.old) tuples.new scope.new) }
    ensures added { IfOk result (λ _. tuples.new ≡ tuples.old ++ (name.now, fields) ∷ []) }
    ensures unknown { IfErr result (λ e. e ≢ fault.OutOfMemory → is_taken (tuple_names tuples.old) name.now ≡ true) }
{
    if scope.has(name) {
        return Err(PlanFault::Unknown);
    }
    let copy = copied(alloc, fields.as_slice())?;
    let own = Txt::of(alloc, name)?;
    scope.add(name, Entry::TupleType(copy))?;
    tuples.push((own, fields))?;
    Ok(())
}

/// Plans a tuple type. Its number is its index.
#[tactic(auto, using(crate::proofs::HeadLemmas::tuple_laws))]
pub(crate) fn tuple_type(
    alloc: Global,
    scope: &mut Scope<'_>,
    tuples: &mut List<NamedTupleType>,
    slots: &Places,
    trees: &[(BaseTree, Txt)],
    name: &str,
) -> Result<Definition, PlanFault>
    requires { IsScoped (sorts_in scope.old) tuples.old scope.old }
    ensures planned { IfOk result (λ e. (n : Named) → DefinitionsPlanned (sorts_in scope.old) n (heads_of tuples.old slots.now)
        (a_tuple_type (view_fields trees.now) name.now ∷ []) (e ∷ []) (heads_of tuples.new slots.now)) }
    ensures scoped { IfOk result (λ _. IsScoped (sorts_in scope.old) tuples.new scope.new) }
    ensures unknown { IfErr result (λ f. f ≢ fault.OutOfMemory → (n : Named)
        → NoDefinition (sorts_in scope.old) n (heads_of tuples.old slots.now) (a_tuple_type (view_fields trees.now) name.now)) }
{
    let number = narrow(tuples.len())?;
    let found = CatalogNames {
        scope: &*scope,
        tuples: tuples.as_slice(),
        slots,
    };
    let planned = planned_fields(alloc, &found, trees)?;
    let fields = typed_fields(alloc, scope, trees)?;
    declare(alloc, scope, tuples, name, fields)?;
    Ok(Definition::Tuple(planned, number))
}
