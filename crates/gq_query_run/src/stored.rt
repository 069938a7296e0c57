// A query of a session.
ghost use Rattle.std.specs.Prelude.{◌≡◌, true};
ghost use Rattle.gq_query_run.specs.Queries.{created};

use gq_tree::QueryTree;
use std::marker::Model;

/// A query of a session: its tree as it was created, borrowed from the script, the graph that was fixed then, by
/// number, and whether it was installed since.
#[derive(Drop)]
pub struct Stored<'s> {
    pub name: &'s str,
    pub tree: &'s QueryTree,
    pub graph: Option<u32>,
    pub installed: bool,
}

impl<'s> Model for Stored<'s> {
    ghost use Rattle.std.specs.Coded.{codes};
    ghost use Rattle.gq_tree.specs.contracts.query.QueryTree as query;
    ghost use Rattle.gq_query_run.specs.Kept.{Kept};

    ghost Value = { Kept };

    ghost coded = { Prim.hlevel (codes, query.the_row.coded) };

    ghost view = { λ q. record { name = q.name.now; tree = q.tree.now; graph = q.graph; installed = q.installed } };
}

impl<'s> Stored<'s> {
    /// A query that isn't installed.
    pub(crate) fn created(name: &'s str, tree: &'s QueryTree, graph: Option<u32>) -> Stored<'s>
        ensures { result ≡ created name.entry.now tree.entry.now graph }
    {
        Stored {
            name,
            tree,
            graph,
            installed: false,
        }
    }

    /// Returns the query's tree.
    pub fn tree(&self) -> &'s QueryTree
        ensures { result.now ≡ self.now.tree }
    {
        self.tree
    }

    /// Returns the number of the query's graph.
    pub fn graph(&self) -> Option<u32>
        ensures { result ≡ self.now.graph }
    {
        self.graph
    }

    /// Whether the query was installed since it was last created.
    pub fn is_installed(&self) -> bool
        ensures { result ≡ self.now.installed }
    {
        self.installed
    }

    /// Returns the same query, installed.
    pub(crate) fn as_installed(&self) -> Stored<'s>
        ensures { result ≡ record self.now { installed = true } }
    {
        Stored {
            name: self.name,
            tree: self.tree,
            graph: self.graph,
            installed: true,
        }
    }
}
