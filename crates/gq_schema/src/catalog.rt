// The catalog.
ghost use Rattle.std.specs.Prelude.{◌≡◌, ◌<◌, ◌≤◌, ◌+◌, ◌++◌, [], ◌∷◌, length, All, true, false, Some, None, MatchResult, slice_get};
ghost use Rattle.std.specs.Option.{option_copied, option_map, ForSome};
ghost use Rattle.gq_graph.specs.Defaults.{is_plain};
ghost use Rattle.gq_graph.specs.Catalog as spec;
ghost use Rattle.gq_schema.specs.Refusals.{Judges, vertex_refusal, edge_refusal, graph_refusal};
ghost use Rattle.gq_schema.specs.Members.{graph_with};

use crate::entries::{
    append_edge_types, append_graph, append_vertex_type, backward_type, edge_type, number_behind,
    vertex_type,
};
use crate::fault::SchemaFault;
use crate::names::NameTable;
use gq_base::OutOfMemory;
use gq_graph::{Attributes, EdgeType, GraphType, IdShape, Names, VertexType};
use std::alloc::Global;
use std::marker::Model;

/// Vertex types, edge types and graphs. Contracts see the three lists.
#[derive(Drop)]
pub struct Catalog {
    pub(crate) vertex_names: NameTable,
    pub(crate) vertex_types: Vec<VertexType>,
    pub(crate) edge_names: NameTable,
    pub(crate) edge_types: Vec<EdgeType>,
    pub(crate) graph_names: NameTable,
    pub(crate) graphs: Vec<GraphType>,
}

impl Model for Catalog {
    ghost use Rattle.std.specs.Coded.{codes};
    ghost use Rattle.gq_value.specs.contracts.value.Value as value;
    ghost use Rattle.gq_value.specs.contracts.kind.BaseType as base;
    ghost use Rattle.gq_graph.specs.Catalog.{Schema};
    ghost use Rattle.gq_schema.specs.Kept.{IsKept};

    ghost Value = { Schema };

    ghost coded = { Prim.hlevel (codes, value.the_row.coded, base.the_row.coded) };

    ghost view = { λ c. record { vertex_types = c.vertex_types.items; edge_types = c.edge_types.items; graphs = c.graphs.items } };

    ghost invariant = { λ c. IsKept c.vertex_names c.edge_names c.graph_names c.vertex_types.items c.edge_types.items c.graphs.items };
}

impl Catalog {
    /// Returns a catalog without types and graphs.
    pub fn new(alloc: Global) -> Catalog
        ensures { result ≡ record { vertex_types = []; edge_types = []; graphs = [] } }
    {
        Catalog {
            vertex_names: NameTable::new(alloc),
            vertex_types: Vec::new(alloc),
            edge_names: NameTable::new(alloc),
            edge_types: Vec::new(alloc),
            graph_names: NameTable::new(alloc),
            graphs: Vec::new(alloc),
        }
    }

    /// The number of the vertex type of a name. Like all lookups, it allocates nothing.
    pub fn vertex_type(&self, name: &str) -> Option<u32>
        ensures { result ≡ spec.vertex_type_of self.now name.now }
    {
        self.vertex_names.find(name)
    }

    /// The number of the edge type of a name.
    pub fn edge_type(&self, name: &str) -> Option<u32>
        ensures { result ≡ spec.edge_type_of self.now name.now }
    {
        self.edge_names.find(name)
    }

    /// The number of the graph of a name.
    pub fn graph(&self, name: &str) -> Option<u32>
        ensures { result ≡ spec.graph_of self.now name.now }
    {
        self.graph_names.find(name)
    }

    /// A vertex type, by its number.
    pub fn vertex_at(&self, kind: u32) -> &VertexType
        requires { kind < length self.now.vertex_types }
        ensures { slice_get self.now.vertex_types kind ≡ Some result.now }
    {
        &self.vertex_types[kind as usize]
    }

    /// An edge type, by its number.
    pub fn edge_at(&self, kind: u32) -> &EdgeType
        requires { kind < length self.now.edge_types }
        ensures { slice_get self.now.edge_types kind ≡ Some result.now }
    {
        &self.edge_types[kind as usize]
    }

    /// The vertex type of a number, or `None` if there is none.
    pub fn vertex_by_number(&self, kind: u32) -> Option<&VertexType>
        ensures { slice_get self.now.vertex_types kind ≡ option_copied result }
    {
        self.vertex_types.as_slice().get(kind as usize)
    }

    /// The edge type of a number, or `None` if there is none.
    pub fn edge_by_number(&self, kind: u32) -> Option<&EdgeType>
        ensures { slice_get self.now.edge_types kind ≡ option_copied result }
    {
        self.edge_types.as_slice().get(kind as usize)
    }

    /// All edge types, by their numbers.
    pub fn edge_types(&self) -> &[EdgeType]
        ensures types { result.now ≡ self.now.edge_types }
        ensures few { length self.now.edge_types ≤ spec.most_types }
    {
        self.edge_types.as_slice()
    }

    /// A graph, by its number.
    pub fn graph_at(&self, graph: u32) -> &GraphType
        requires { graph < length self.now.graphs }
        ensures { slice_get self.now.graphs graph ≡ Some result.now }
    {
        &self.graphs[graph as usize]
    }

    /// The number of attributes of an edge type that are part of an edge's name.
    pub fn discriminators(&self, kind: u32) -> u32
        requires { kind < length self.now.edge_types }
        ensures { (t : EdgeType) → slice_get self.now.edge_types kind ≡ Some t → result ≡ t.discriminators }
    {
        self.edge_types[kind as usize].discriminators
    }

    /// The number of types, including reverse types.
    pub fn type_count(&self) -> u32
        ensures count { result ≡ spec.type_count self.now }
        ensures few { spec.type_count self.now ≤ spec.most_types }
    {
        self.vertex_types.len() as u32 + self.edge_types.len() as u32
    }

    /// The number of graphs.
    pub fn graph_count(&self) -> usize
        ensures { result ≡ length self.now.graphs }
    {
        self.graphs.len()
    }

    /// Appends a vertex type, or refuses it by the first rule that fails. A refusal leaves the catalog unchanged.
    pub fn add_vertex_type(
        &mut self,
        name: &str,
        id: &IdShape,
        attributes: &Attributes,
    ) -> Result<u32, SchemaFault>
        requires { All (λ a. is_plain a ≡ true) attributes.now }
        ensures judged { Judges (vertex_refusal self.old name.now id.now attributes.now) result }
        ensures done { MatchResult result
            (λ n. (n ≡ length self.old.vertex_types) × (self.new ≡ spec.with_vertex_type self.old name.now id.now attributes.now))
            (λ _. self.new ≡ self.old) }
    {
        let alloc = *self.vertex_types.allocator();
        match self.check_vertex_type(alloc, name, id, attributes.as_slice()) {
            Ok(()) => {}
            Err(fault) => return Err(fault),
        }
        let entry = match vertex_type(alloc, name, id, attributes.as_slice()) {
            Ok(entry) => entry,
            Err(OutOfMemory) => return Err(SchemaFault::OutOfMemory),
        };
        match append_vertex_type(&mut self.vertex_names, &mut self.vertex_types, entry) {
            Ok(number) => Ok(number),
            Err(OutOfMemory) => Err(SchemaFault::OutOfMemory),
        }
    }

    /// Appends an edge type and, directly after it, its reverse type, or refuses both by the first rule that fails.
    /// Returns the forward type's number. The discriminators become the type's first attributes. A refusal leaves the
    /// catalog unchanged.
    pub fn add_edge_type(
        &mut self,
        name: &str,
        directed: bool,
        from: &str,
        to: &str,
        reverse: Option<&str>,
        discriminators: &Attributes,
        attributes: &Attributes,
    ) -> Result<u32, SchemaFault>
        requires key { All (λ a. is_plain a ≡ true) discriminators.now }
        requires kinds { All (λ a. is_plain a ≡ true) attributes.now }
        ensures judged { Judges (edge_refusal self.old name.now from.now to.now (option_copied reverse.entry) (discriminators.now ++ attributes.now)) result }
        ensures done { MatchResult result
            (λ n. (n ≡ length self.old.edge_types)
            × (self.new ≡ spec.with_edge_types self.old (spec.edge_types_of n name.now directed
            (spec.end_of self.old from.now) (spec.end_of self.old to.now) (option_copied reverse.entry)
            (length discriminators.now) (discriminators.now ++ attributes.now))))
            (λ _. self.new ≡ self.old) }
    {
        let alloc = *self.edge_types.allocator();
        let (key, rest) = (discriminators.as_slice(), attributes.as_slice());
        let (from, to) = match self.check_edge_type(alloc, name, from, to, reverse, key, rest) {
            Ok(ends) => ends,
            Err(fault) => return Err(fault),
        };
        let number = self.edge_types.len() as u32;
        let pair = (None, number_behind(reverse, number));
        let forward = match edge_type(alloc, name, directed, (from, to), pair, key, rest) {
            Ok(entry) => entry,
            Err(OutOfMemory) => return Err(SchemaFault::OutOfMemory),
        };
        let backward = match backward_type(
            alloc,
            reverse,
            directed,
            (to, from),
            number,
            key,
            rest,
        ) {
            Ok(entry) => entry,
            Err(OutOfMemory) => return Err(SchemaFault::OutOfMemory),
        };
        match append_edge_types(
            &mut self.edge_names,
            &mut self.edge_types,
            forward,
            backward,
        ) {
            Ok(number) => Ok(number),
            Err(OutOfMemory) => Err(SchemaFault::OutOfMemory),
        }
    }

    /// Appends a graph of the members, or of all types without a list, or refuses it by the first rule that fails.
    /// A refusal leaves the catalog unchanged.
    pub fn add_graph(&mut self, name: &str, members: Option<&Names>) -> Result<u32, SchemaFault>
        ensures judged { Judges (graph_refusal self.old name.now (option_copied members.entry)) result }
        ensures done { MatchResult result
            (λ n. (n ≡ length self.old.graphs) × (self.new ≡ spec.with_graph self.old (graph_with self.old name.now (option_copied members.entry))))
            (λ _. self.new ≡ self.old) }
    {
        let alloc = *self.graphs.allocator();
        match self.check_graph(alloc, name) {
            Ok(()) => {}
            Err(fault) => return Err(fault),
        }
        let entry = match self.graph_type(alloc, name, members) {
            Ok(entry) => entry,
            Err(fault) => return Err(fault),
        };
        match append_graph(&mut self.graph_names, &mut self.graphs, entry) {
            Ok(number) => Ok(number),
            Err(OutOfMemory) => Err(SchemaFault::OutOfMemory),
        }
    }
}
