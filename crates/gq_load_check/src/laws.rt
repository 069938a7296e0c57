// Laws about catalogs that are extended.
ghost use Rattle.std.specs.Prelude.{List, ℕ};
ghost use Rattle.gq_graph.specs.Catalog.{Schema, with_edge_types, with_graph, with_vertex_type};
ghost use Rattle.gq_graph.specs.declared.types.Attribute.{Attribute};
ghost use Rattle.gq_graph.specs.declared.types.EdgeType.{EdgeType};
ghost use Rattle.gq_graph.specs.declared.types.GraphType.{GraphType};
ghost use Rattle.gq_graph.specs.declared.types.IdShape.{IdShape};
ghost use Rattle.gq_load_check.specs.Fits.{HasGrown, LineFits};
ghost use Rattle.gq_load_check.specs.declared.job.LoadLine.{LoadLine};

/// A line that was checked for a catalog stays valid in every extension of it.
pub fn lines_stay_checked()
    ensures { (before after : Schema) (line : LoadLine) → HasGrown before after → LineFits before line → LineFits after line }
{}

/// Each declaration extends the catalog, and extending is transitive.
pub fn catalogs_grow()
    ensures by_vertex_type { (schema : Schema) (name : List ℕ) (id : IdShape) (attributes : List Attribute) → HasGrown schema (with_vertex_type schema name id attributes) }
    ensures by_edge_types { (schema : Schema) (types : List EdgeType) → HasGrown schema (with_edge_types schema types) }
    ensures by_graph { (schema : Schema) (graph : GraphType) → HasGrown schema (with_graph schema graph) }
    ensures not { (schema : Schema) → HasGrown schema schema }
    ensures on { (a b c : Schema) → HasGrown a b → HasGrown b c → HasGrown a c }
{}
