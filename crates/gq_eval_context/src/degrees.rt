// How many edges can be walked from a vertex.
ghost use Rattle.std.specs.Prelude.{◌≡◌, ◌≤◌, ℕ, List, length, map, pos};
ghost use Rattle.std.specs.Option.{option_map};
ghost use Rattle.gq_graph.specs.Catalog.{most_types};
ghost use Rattle.gq_graph.specs.Edges.{most_edges};
ghost use Rattle.gq_index.specs.Sights.{sight_of};
ghost use Rattle.gq_index.specs.Walks.{adjacency};
ghost use Rattle.gq_index.specs.Rows.{HaveEnds};
ghost use Rattle.gq_rules_typing.specs.Words.{edge_quoted};
ghost use Rattle.gq_rules_meaning.specs.Calls.{sum, degree_of};
ghost use Rattle.gq_eval_attributes.specs.Worlds.{graph_is};

use gq_index::Graph;

/// How many edges of these types can be walked from a vertex.
#[tactic(auto, using(crate::proofs::DegreeLemmas::sum_laws))]
pub(crate) fn degree(graph: Graph<'_>, own: &[u32], vertex: u32) -> i64
    requires indexed { graph.index.now ≡ adjacency (sight_of graph.catalog.now graph.store.now.vertices graph.store.now.edges) }
    requires ends { HaveEnds graph.store.now.vertices graph.store.now.edges.rows }
    requires few { length own.now ≤ most_types }
    ensures { result ≡ pos (sum (map (degree_of (graph_is graph.entry own.now own.now) vertex) own.now)) }
{
    let mut total = 0u64;
    for kind in own {
        total += walked(graph, vertex, *kind);
    }
    total as i64
}

/// How many edges of the type of a name can be walked from a vertex, if the name is that of one of these types.
#[tactic(auto, using(crate::proofs::DegreeLemmas::name_laws))]
pub(crate) fn degree_under(graph: Graph<'_>, own: &[u32], vertex: u32, edge: &str) -> Option<i64>
    requires indexed { graph.index.now ≡ adjacency (sight_of graph.catalog.now graph.store.now.vertices graph.store.now.edges) }
    requires ends { HaveEnds graph.store.now.vertices graph.store.now.edges.rows }
    ensures { option_map pos (option_map (degree_of (graph_is graph.entry own.now own.now) vertex) (edge_quoted (graph_is graph.entry own.now own.now).sorts edge.now)) ≡ result }
{
    match graph.catalog.edge_type(edge) {
        None => None,
        Some(kind) => {
            if own.contains(&kind) {
                Some(walked(graph, vertex, kind) as i64)
            } else {
                None
            }
        }
    }
}

/// How many edges of a type can be walked from a vertex; 0 for a type or a vertex that doesn't exist.
#[tactic(auto, using(crate::proofs::DegreeLemmas::walked_laws))]
fn walked(graph: Graph<'_>, vertex: u32, kind: u32) -> u64
    requires indexed { graph.index.now ≡ adjacency (sight_of graph.catalog.now graph.store.now.vertices graph.store.now.edges) }
    requires ends { HaveEnds graph.store.now.vertices graph.store.now.edges.rows }
    ensures degree { (own : List ℕ) → result ≡ degree_of (graph_is graph.entry own own) vertex kind }
    ensures few { result ≤ most_edges }
{
    match graph.catalog.edge_by_number(kind) {
        None => 0,
        Some(_) => {
            if vertex < graph.store.vertices.len() {
                // No degree is above the number of edges, which the edge table bounds.
                let _edges = graph.store.edges.len();
                graph.index.degree(vertex, kind)
            } else {
                0
            }
        }
    }
}
