// Names that come into view, and types that are declared.
ghost use Rattle.std.specs.Option.{option_map, option_copied};
ghost use Rattle.gq_rules_typing.specs.StatementViews.{view_base, view_set_types};
ghost use Rattle.gq_plan_expr.specs.Names.{globals_in};
ghost use Rattle.gq_plan_expr.specs.Resolved.{Answers};
ghost use Rattle.gq_plan_select.specs.Resolved.{if_there};
ghost use Rattle.gq_plan_stmt.specs.Parts.{resolved_base, resolved_set_types};
ghost use Rattle.gq_plan_stmt.specs.Steps.{AnswersIn, new_name, resolved_target};

use gq_plan_expr::{CatalogNames, PlanFault};
use gq_plan_ir::{Declared, SetTypes};
use gq_scope::Places;
use gq_tree::BaseTree;

/// Brings a name into view, if it isn't yet, and returns its place.
pub fn add_name(places: &mut Places, name: &str) -> Result<u32, PlanFault>
    ensures { AnswersIn (new_name places.old name.now) places.new result }
{
    match places.find(name) {
        Some(_) => Err(PlanFault::Unknown),
        None => {
            let place = places.add(name, false)?;
            Ok(place)
        }
    }
}

/// Returns the place of a name that is assigned a set or a value.
pub(crate) fn target(places: &mut Places, name: &str, set: bool) -> Result<u32, PlanFault>
    ensures { AnswersIn (resolved_target places.old name.now set) places.new result }
{
    match places.find(name) {
        Some(seen) => {
            if seen.marked == set {
                Ok(seen.place)
            } else {
                Err(PlanFault::Unknown)
            }
        }
        None => {
            if set {
                let place = places.add(name, true)?;
                Ok(place)
            } else {
                Err(PlanFault::Unknown)
            }
        }
    }
}

/// Returns the graph's vertex type with a name.
pub(crate) fn vertex_type(globals: &CatalogNames<'_>, name: &str) -> Result<u32, PlanFault>
    ensures { Answers ((globals_in globals.now).vertex_type name.now) result }
{
    match globals.vertex_type(name) {
        None => Err(PlanFault::Unknown),
        Some(number) => Ok(number),
    }
}

/// Returns the slot of an accumulator.
pub(crate) fn slot(globals: &CatalogNames<'_>, name: &str) -> Result<u32, PlanFault>
    ensures { Answers ((globals_in globals.now).slot name.now) result }
{
    match globals.slot(name) {
        None => Err(PlanFault::Unknown),
        Some(slot) => Ok(slot),
    }
}

/// Returns the type of a declaration, or `Unknown` if the graph doesn't have it.
pub fn plan_base(globals: &CatalogNames<'_>, tree: &BaseTree) -> Result<Declared, PlanFault>
    ensures { Answers (resolved_base (globals_in globals.now) (view_base tree.now)) result }
{
    match tree {
        BaseTree::Int => Ok(Declared::Int),
        BaseTree::UInt => Ok(Declared::UInt),
        BaseTree::Bool => Ok(Declared::Bool),
        BaseTree::Text => Ok(Declared::Text),
        BaseTree::AnyVertex => Ok(Declared::AnyVertex),
        BaseTree::VertexOf(name) => {
            let number = vertex_type(globals, name.as_str())?;
            Ok(Declared::VertexOf(number))
        }
    }
}

fn set_types(
    globals: &CatalogNames<'_>,
    types: &gq_tree::SetTypesTree,
) -> Result<SetTypes, PlanFault>
    ensures { Answers (resolved_set_types (globals_in globals.now) (view_set_types types.now)) result }
{
    match types {
        gq_tree::SetTypesTree::Any => Ok(SetTypes::Every),
        gq_tree::SetTypesTree::Of(name) => {
            let number = vertex_type(globals, name.as_str())?;
            Ok(SetTypes::Of(number))
        }
    }
}

/// Returns the types that a set variable is declared with, if there are any.
pub(crate) fn set_types_if(
    globals: &CatalogNames<'_>,
    types: Option<&gq_tree::SetTypesTree>,
) -> Result<Option<SetTypes>, PlanFault>
    ensures { Answers (if_there (resolved_set_types (globals_in globals.now)) (option_map view_set_types (option_copied types.entry))) result }
{
    match types {
        None => Ok(None),
        Some(types) => {
            let planned = set_types(globals, types)?;
            Ok(Some(planned))
        }
    }
}
