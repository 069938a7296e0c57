// Name resolution: for names that are the same anywhere in a query, and with the names in view.
ghost use Rattle.std.specs.Prelude.{◌≡◌, IfOk};
ghost use Rattle.std.specs.Option.{option_copied};
ghost use Rattle.gq_scope.specs.Held.{sorts_in};
ghost use Rattle.gq_plan_ir.specs.Settled.{counted_types};
ghost use Rattle.gq_plan_expr.specs.Found.{field_at};
ghost use Rattle.gq_plan_expr.specs.Found as spec;
ghost use Rattle.gq_plan_expr.specs.Names.{globals_in, known_of, sees_of};

use crate::functions::function_of;
use crate::tables::{in_edges, in_tuples, in_vertices};
use gq_base::{List, OutOfMemory};
use gq_plan_ir::{Field, FieldPlaces, Function};
use gq_scope::{Places, Scope};
use gq_value::{BaseType, Txt};
use std::alloc::Global;

/// A tuple type with its fields.
pub type NamedTupleType = (Txt, List<(Txt, BaseType)>);

/// Resolves names that mean the same anywhere in a query: the types of a graph, the tuple types of a query by index,
/// and the slots of its accumulators.
#[derive(Drop)]
pub struct CatalogNames<'a> {
    /// The types of the graph.
    pub scope: &'a Scope<'a>,
    pub tuples: &'a [NamedTupleType],
    pub slots: &'a Places,
}

#[tactic(auto, unfolding(crate::specs::Names::globals_in))]
impl<'a> CatalogNames<'a> {
    /// Returns the slot of an accumulator, by its name with `@` or `@@`.
    pub fn slot(&self, name: &str) -> Option<u32>
        ensures { result ≡ (globals_in self.now).slot name.now }
    {
        self.slots.place(name)
    }

    /// Returns the place of the field with this name in each type.
    pub fn field(&self, alloc: Global, name: &str) -> Result<Field, OutOfMemory>
        ensures { IfOk result (λ field. field ≡ (globals_in self.now).field name.now) }
    {
        field_of(alloc, self.scope, self.tuples, name)
    }

    /// Returns the function or the tuple type with a name.
    pub fn function(&self, alloc: Global, name: &str) -> Result<Option<Function>, OutOfMemory>
        ensures { IfOk result (λ function. function ≡ (globals_in self.now).function name.now) }
    {
        function_of(alloc, self.tuples, name)
    }

    /// Returns the edge types that `outdegree` counts: those of the graph, or the one with this name.
    pub fn counted(
        &self,
        alloc: Global,
        edge: Option<&str>,
    ) -> Result<Option<List<u32>>, OutOfMemory>
        ensures { IfOk result (λ types. types ≡ (globals_in self.now).counted (option_copied edge.entry)) }
    {
        counted(alloc, self.scope, edge)
    }

    /// Returns the graph's vertex type with a name.
    #[tactic(auto, unfolding(crate::specs::Names::globals_in, gq_scope::specs::Held::setting_in))]
    pub fn vertex_type(&self, name: &str) -> Option<u32>
        ensures { result ≡ (globals_in self.now).vertex_type name.now }
    {
        self.scope.vertex_type(name)
    }

    /// Returns the graph's edge type with a name.
    #[tactic(auto, unfolding(crate::specs::Names::globals_in, gq_scope::specs::Held::setting_in))]
    pub fn edge_type(&self, name: &str) -> Option<u32>
        ensures { result ≡ (globals_in self.now).edge_type name.now }
    {
        self.scope.edge_type(name)
    }
}

/// Resolves all names, including those in view.
#[derive(Drop)]
pub struct NameResolver<'a> {
    pub globals: &'a CatalogNames<'a>,
    pub places: &'a Places,
}

#[tactic(auto, unfolding(crate::specs::Names::known_of))]
impl<'a> NameResolver<'a> {
    /// Returns the place of a variable, a set or an alias.
    pub fn place(&self, name: &str) -> Option<u32>
        ensures { result ≡ (known_of self.now).place name.now }
    {
        self.places.place(name)
    }

    /// Returns the slot of an accumulator, by its name with `@` or `@@`.
    pub fn slot(&self, name: &str) -> Option<u32>
        ensures { result ≡ (known_of self.now).slot name.now }
    {
        self.globals.slot(name)
    }

    /// Returns the place of the field with this name in each type.
    pub fn field(&self, alloc: Global, name: &str) -> Result<Field, OutOfMemory>
        ensures { IfOk result (λ field. field ≡ (known_of self.now).field name.now) }
    {
        self.globals.field(alloc, name)
    }

    /// Returns the function or the tuple type with a name.
    pub fn function(&self, alloc: Global, name: &str) -> Result<Option<Function>, OutOfMemory>
        ensures { IfOk result (λ function. function ≡ (known_of self.now).function name.now) }
    {
        self.globals.function(alloc, name)
    }

    /// Returns the edge types that `outdegree` counts: those of the graph, or the one with this name.
    pub fn counted(
        &self,
        alloc: Global,
        edge: Option<&str>,
    ) -> Result<Option<List<u32>>, OutOfMemory>
        ensures { IfOk result (λ types. types ≡ (known_of self.now).counted (option_copied edge.entry)) }
    {
        self.globals.counted(alloc, edge)
    }

    /// Whether a visible name is a set.
    #[tactic(auto, unfolding(crate::specs::Names::sees_of))]
    pub fn is_set(&self, name: &str) -> bool
        ensures { result ≡ (sees_of self.now).is_set name.now }
    {
        self.places.is_marked(name)
    }

    /// Returns the graph's vertex type with a name.
    #[tactic(auto, unfolding(crate::specs::Names::sees_of))]
    pub fn vertex_type(&self, name: &str) -> Option<u32>
        ensures { result ≡ (sees_of self.now).vertex_type name.now }
    {
        self.globals.vertex_type(name)
    }

    /// Returns the graph's edge type with a name.
    #[tactic(auto, unfolding(crate::specs::Names::sees_of))]
    pub fn edge_type(&self, name: &str) -> Option<u32>
        ensures { result ≡ (sees_of self.now).edge_type name.now }
    {
        self.globals.edge_type(name)
    }
}

/// Returns the place of the field with this name in each type.
fn field_of(
    alloc: Global,
    scope: &Scope<'_>,
    tuples: &[NamedTupleType],
    name: &str,
) -> Result<Field, OutOfMemory>
    ensures { IfOk result (λ field. field ≡ field_at (sorts_in scope.now) tuples.now name.now) }
{
    if "type" == name {
        return Ok(Field::Type);
    }
    let places = places_of(alloc, scope, tuples, name)?;
    Ok(Field::Named(places))
}

#[tactic(auto, unfolding(gq_scope::specs::Held::sorts_in))]
fn places_of(
    alloc: Global,
    scope: &Scope<'_>,
    tuples: &[NamedTupleType],
    field: &str,
) -> Result<FieldPlaces, OutOfMemory>
    ensures { IfOk result (λ places. places ≡ spec.places_of (sorts_in scope.now) tuples.now field.now) }
{
    let name = Txt::of(alloc, field)?;
    let vertices = in_vertices(alloc, scope.catalog(), field)?;
    let edges = in_edges(alloc, scope.catalog().edge_types(), field)?;
    let tuples = in_tuples(alloc, tuples, field)?;
    Ok(FieldPlaces {
        name,
        vertices,
        edges,
        tuples,
    })
}

/// Returns the edge types that `outdegree` counts.
#[tactic(auto, unfolding(gq_scope::specs::Held::setting_in))]
fn counted(
    alloc: Global,
    scope: &Scope<'_>,
    edge: Option<&str>,
) -> Result<Option<List<u32>>, OutOfMemory>
    ensures { IfOk result (λ types. types ≡ counted_types (sorts_in scope.now) (option_copied edge.entry)) }
{
    match edge {
        None => {
            let types = List::from_slice(alloc, scope.own_edges())?;
            Ok(Some(types))
        }
        Some(name) => match scope.edge_type(name) {
            None => Ok(None),
            Some(number) => {
                let types = List::from_slice(alloc, &[number])?;
                Ok(Some(types))
            }
        },
    }
}
