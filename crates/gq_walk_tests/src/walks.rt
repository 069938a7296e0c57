// Helpers own what is built, and return numbers: proofs of tests grow with what a return drops.
use crate::world::{Joined, catalog_of, set_of, store_of};
use gq_base::List;
use gq_graph::{Candidate, Pattern, Steps};
use gq_index::{Candidates, Graph, Index, Store, chunk};
use gq_schema::Catalog;
use std::alloc::Global;
use std::test::Fail;

// To persons, along these edge types.
fn pattern_of(alloc: Global, edges: &[u32]) -> Result<Pattern, Fail> {
    Ok(Pattern {
        edges: List::from_slice(alloc, edges)?,
        targets: List::from_slice(alloc, &[0])?,
    })
}

// How many candidates there are, and the one at a place, if there is one, with the steps that it takes to find it.
#[derive(Clone, Copy)]
struct Located {
    count: u64,
    candidate: Option<Candidate>,
    steps: u64,
}

fn found_at(candidates: &Candidates<'_>, place: u64) -> Located {
    let count = candidates.count();
    let mut steps = Steps::new();
    let candidate = if place < count {
        Some(candidates.at(place, &mut steps))
    } else {
        None
    };
    Located {
        count,
        candidate,
        steps: steps.count(),
    }
}

fn found_in(
    alloc: Global,
    catalog: &Catalog,
    store: &Store,
    set: &[u32],
    edges: &[u32],
    place: u64,
) -> Result<Located, Fail> {
    let set = set_of(alloc, set)?;
    let pattern = pattern_of(alloc, edges)?;
    let index = Index::build(alloc, catalog, store)?;
    let graph = Graph {
        catalog,
        store,
        index: &index,
    };
    let candidates = Candidates::of(alloc, &graph, &set, Some(&pattern))?;
    Ok(found_at(&candidates, place))
}

fn found(
    alloc: Global,
    joined: Joined<'_>,
    set: &[u32],
    edges: &[u32],
    place: u64,
) -> Result<Located, Fail> {
    let catalog = catalog_of(alloc, joined.directed)?;
    let store = store_of(alloc, joined)?;
    found_in(alloc, &catalog, &store, set, edges, place)
}

// How many candidates there are.
fn count(alloc: Global, joined: Joined<'_>, set: &[u32], edges: &[u32]) -> Result<u64, Fail> {
    Ok(found(alloc, joined, set, edges, 0)?.count)
}

fn degree(alloc: Global, joined: Joined<'_>, vertex: u32, kind: u32) -> Result<u64, Fail> {
    let catalog = catalog_of(alloc, joined.directed)?;
    let store = store_of(alloc, joined)?;
    Ok(Index::build(alloc, &catalog, &store)?.degree(vertex, kind))
}

const KNOWS: Joined<'static> = Joined {
    directed: true,
    persons: 3,
    pairs: &[(0, 1), (0, 2), (1, 2)],
};

const NEAR: Joined<'static> = Joined {
    directed: false,
    persons: 3,
    pairs: &[(0, 1), (1, 1)],
};

#[test]
fn the_last_candidate_of_three_is_found_in_three_steps(rt: HostRuntime) -> Result<(), Fail> {
    let last = found(rt.alloc(), KNOWS, &[2, 1, 0], &[0], 2)?;
    assert_eq!(rt; last.count, 3);
    let wanted = Candidate {
        source: 1,
        edge: Some(2),
        kind: Some(0),
        target: Some(2),
    };
    assert!(rt; last.candidate == Some(wanted));
    assert!(rt; last.steps <= 3);
    Ok(())
}

#[test]
fn an_undirected_self_loop_matches_once(rt: HostRuntime) -> Result<(), Fail> {
    assert_eq!(rt; count(rt.alloc(), NEAR, &[0, 1], &[0])?, 3);
    assert_eq!(rt; degree(rt.alloc(), NEAR, 1, 0)?, 2);
    Ok(())
}

#[test]
fn a_degree_under_a_reverse_type_counts_edges_that_come_in(rt: HostRuntime) -> Result<(), Fail> {
    for (vertex, out, back) in [(0, 2, 0), (1, 1, 1), (2, 0, 2), (3, 0, 0)] {
        assert_eq!(rt; degree(rt.alloc(), KNOWS, vertex, 0)?, out);
        assert_eq!(rt; degree(rt.alloc(), KNOWS, vertex, 1)?, back);
    }
    Ok(())
}

#[test]
fn a_pattern_of_every_edge_type_walks_each_edge_from_both_ends(
    rt: HostRuntime,
) -> Result<(), Fail> {
    assert_eq!(rt; count(rt.alloc(), KNOWS, &[0, 1, 2], &[0, 1])?, 6);
    assert_eq!(rt; count(rt.alloc(), KNOWS, &[], &[0, 1])?, 0);
    assert_eq!(rt; count(rt.alloc(), KNOWS, &[0, 1, 2], &[])?, 0);
    Ok(())
}

#[test]
fn what_is_not_there_is_not_walked(rt: HostRuntime) -> Result<(), Fail> {
    let stray = Joined {
        pairs: &[(9, 0), (0, 9), (1, 0)],
        ..KNOWS
    };
    assert_eq!(rt; count(rt.alloc(), stray, &[0, 1, 2, 9], &[0, 1, 9])?, 2);
    let between = Joined {
        pairs: &[(0, 1), (0, 9), (0, 2)],
        ..KNOWS
    };
    assert_eq!(rt; count(rt.alloc(), between, &[0], &[0])?, 2);
    Ok(())
}

#[test]
fn the_last_chunk_may_be_short(rt: HostRuntime) -> Result<(), Fail> {
    assert_eq!(rt; chunk(0, 4, 10), (0, 4));
    assert_eq!(rt; chunk(2, 4, 10), (8, 10));
    Ok(())
}
