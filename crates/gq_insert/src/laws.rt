// Laws about catalogs made by declarations.
ghost use Rattle.std.specs.Prelude.{◌≡◌, ◌++◌, ℕ, Bool, List, [], Option, None, All, true, length};
ghost use Rattle.gq_graph.specs.Catalog.{Schema, edge_types_of, end_of, with_edge_types, with_graph, with_vertex_type};
ghost use Rattle.gq_graph.specs.Defaults.{is_plain};
ghost use Rattle.gq_graph.specs.declared.types.Attribute.{Attribute};
ghost use Rattle.gq_graph.specs.declared.types.GraphType.{GraphType};
ghost use Rattle.gq_graph.specs.declared.types.IdShape.{IdShape};
ghost use Rattle.gq_schema.specs.Refusals.{edge_refusal, vertex_refusal};
ghost use Rattle.gq_insert.specs.Fits.{IsSound};

/// The types of an empty catalog are sound, and each declaration that isn't refused keeps them so.
#[tactic(auto, using(crate::specs::SoundLaws::soundness))]
pub fn catalogs_are_sound()
    ensures empty { IsSound (record { vertex_types = []; edge_types = []; graphs = [] }) }
    ensures by_graph { (schema : Schema) (graph : GraphType) → IsSound schema → IsSound (with_graph schema graph) }
    ensures by_vertex_type { (schema : Schema) (name : List ℕ) (id : IdShape) (attributes : List Attribute) → All (λ a. is_plain a ≡ true) attributes
        → vertex_refusal schema name id attributes ≡ None → IsSound schema → IsSound (with_vertex_type schema name id attributes) }
    ensures by_edge_type { (schema : Schema) (number : ℕ) (name : List ℕ) (directed : Bool) (from to : List ℕ) (reverse : Option (List ℕ)) (key rest : List Attribute)
        → All (λ a. is_plain a ≡ true) key → All (λ a. is_plain a ≡ true) rest → edge_refusal schema name from to reverse (key ++ rest) ≡ None → IsSound schema
        → IsSound (with_edge_types schema (edge_types_of number name directed (end_of schema from) (end_of schema to) reverse (length key) (key ++ rest))) }
{}
