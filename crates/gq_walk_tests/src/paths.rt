// Each helper owns little, and returns numbers: proofs of tests grow with what a return drops.
ghost use Rattle.std.specs.Prelude.{◌≡◌};
ghost use Rattle.gq_index.specs.Sights.{sight_of};
ghost use Rattle.gq_index.specs.Walks.{adjacency};

use crate::world::{Joined, catalog_of, set_of, store_of};
use gq_base::{List, OutOfMemory};
use gq_exec_source::{PathPattern, PathStep, Paths, PathsFault};
use gq_graph::Candidate;
use gq_index::{Graph, Index, Store, VertexList};
use gq_schema::Catalog;
use gq_tree::Way;
use std::alloc::Global;
use std::test::Fail;

// A set, the steps from it, and the bindings in order: each as its source, its last row and its end, as one number of
// three digits.
#[derive(Clone, Copy)]
struct Case<'a> {
    set: &'a [u32],
    steps: &'a [&'a [(Way, u32)]],
    wanted: &'a [u32],
}

// How many bindings there are, and whether they are the expected ones.
#[derive(Clone, Copy)]
struct Found {
    count: u64,
    same: bool,
}

// Each step to persons.
fn pattern_of(alloc: Global, steps: &[&[(Way, u32)]]) -> Result<PathPattern, Fail> {
    let mut pattern = List::new(alloc);
    for step in steps {
        pattern.push(PathStep {
            edges: List::from_slice(alloc, step)?,
            targets: List::from_slice(alloc, &[0])?,
        })?;
    }
    Ok(pattern)
}

fn number_of(binding: Candidate) -> u32 {
    let row = binding.edge.unwrap_or(9);
    let target = binding.target.unwrap_or(9);
    binding
        .source
        .wrapping_mul(100)
        .wrapping_add(row.wrapping_mul(10))
        .wrapping_add(target)
}

fn are(paths: &Paths<'_>, wanted: &[u32]) -> bool {
    if paths.count() != wanted.len() as u64 {
        return false;
    }
    for place in 0..paths.count() {
        if number_of(paths.at(place)) != wanted[place as usize] {
            return false;
        }
    }
    true
}

// None if there are too many.
fn listed(
    alloc: Global,
    graph: &Graph<'_>,
    set: &VertexList,
    pattern: &PathPattern,
    wanted: &[u32],
) -> Result<Option<Found>, Fail>
    requires { graph.now.index.now ≡ adjacency (sight_of graph.now.catalog.now graph.now.store.now.vertices graph.now.store.now.edges) }
{
    match Paths::of(alloc, graph, set, pattern) {
        Ok(paths) => Ok(Some(Found {
            count: paths.count(),
            same: are(&paths, wanted),
        })),
        Err(PathsFault::TooMany) => Ok(None),
        Err(PathsFault::OutOfMemory) => Err(OutOfMemory.into()),
    }
}

fn along(alloc: Global, graph: &Graph<'_>, case: Case<'_>) -> Result<Option<Found>, Fail>
    requires { graph.now.index.now ≡ adjacency (sight_of graph.now.catalog.now graph.now.store.now.vertices graph.now.store.now.edges) }
{
    let set = set_of(alloc, case.set)?;
    let pattern = pattern_of(alloc, case.steps)?;
    listed(alloc, graph, &set, &pattern, case.wanted)
}

fn indexed(
    alloc: Global,
    catalog: &Catalog,
    store: &Store,
    case: Case<'_>,
) -> Result<Option<Found>, Fail> {
    let index = Index::build(alloc, catalog, store)?;
    let graph = Graph {
        catalog,
        store,
        index: &index,
    };
    along(alloc, &graph, case)
}

fn measured(alloc: Global, joined: Joined<'_>, case: Case<'_>) -> Result<Option<Found>, Fail> {
    let catalog = catalog_of(alloc, joined.directed)?;
    let store = store_of(alloc, joined)?;
    indexed(alloc, &catalog, &store, case)
}

fn holds(alloc: Global, joined: Joined<'_>, case: Case<'_>) -> Result<bool, Fail> {
    match measured(alloc, joined, case)? {
        Some(found) => Ok(found.same),
        None => Ok(false),
    }
}

// How many cases succeed before the first failure.
fn holding(alloc: Global, joined: Joined<'_>, cases: &[Case<'_>]) -> Result<u32, Fail> {
    let mut count = 0u32;
    for case in cases {
        if !holds(alloc, joined, *case)? {
            return Ok(count);
        }
        count = count.wrapping_add(1);
    }
    Ok(count)
}

const OUT: &[(Way, u32)] = &[(Way::Forward, 0)];

const BACK: &[(Way, u32)] = &[(Way::Backward, 0)];

const EITHER: &[(Way, u32)] = &[(Way::Both, 0)];

const EACH: &[(Way, u32)] = &[(Way::Backward, 0), (Way::Forward, 0)];

const TWICE: &[(Way, u32)] = &[(Way::Forward, 0), (Way::Forward, 0)];

const KNOWN_BY: &[(Way, u32)] = &[(Way::Forward, 1)];

const NO_TYPE: &[(Way, u32)] = &[(Way::Forward, 7)];

const AGAINST_KNOWN_BY: &[(Way, u32)] = &[(Way::Backward, 1)];

const CHAIN: Joined<'static> = Joined {
    directed: true,
    persons: 6,
    pairs: &[(0, 1), (1, 2), (2, 3), (0, 4), (4, 5)],
};

const BY_SOURCE: &[Case<'static>] = &[
    Case {
        set: &[3, 2, 1, 0, 4, 5],
        steps: &[OUT, OUT],
        wanted: &[12, 45, 123],
    },
    Case {
        set: &[3, 2, 1, 0, 4, 5],
        steps: &[OUT],
        wanted: &[1, 34, 112, 223, 445],
    },
    Case {
        set: &[5, 0],
        steps: &[],
        wanted: &[99, 599],
    },
];

#[test]
fn bindings_stand_by_source_and_then_step_after_step(rt: HostRuntime) -> Result<(), Fail> {
    assert_eq!(rt; holding(rt.alloc(), CHAIN, BY_SOURCE)?, 3);
    Ok(())
}

const THREE_STEPS: &[Case<'static>] = &[
    Case {
        set: &[0, 4],
        steps: &[OUT, OUT, OUT],
        wanted: &[23],
    },
    Case {
        set: &[0, 0],
        steps: &[OUT, OUT, BACK],
        wanted: &[11, 44],
    },
];

#[test]
fn of_three_steps_a_row_that_leads_nowhere_gives_no_binding(rt: HostRuntime) -> Result<(), Fail> {
    assert_eq!(rt; holding(rt.alloc(), CHAIN, THREE_STEPS)?, 2);
    Ok(())
}

const BACKWARDS: &[Case<'static>] = &[
    Case {
        set: &[2],
        steps: &[BACK, BACK],
        wanted: &[200],
    },
    Case {
        set: &[2],
        steps: &[KNOWN_BY, KNOWN_BY],
        wanted: &[200],
    },
    Case {
        set: &[1],
        steps: &[AGAINST_KNOWN_BY, OUT],
        wanted: &[123],
    },
];

#[test]
fn a_type_is_walked_backwards_and_its_reverse_type_too(rt: HostRuntime) -> Result<(), Fail> {
    assert_eq!(rt; holding(rt.alloc(), CHAIN, BACKWARDS)?, 3);
    Ok(())
}

const THERE_AND_BACK: &[Case<'static>] = &[
    Case {
        set: &[0],
        steps: &[OUT, BACK],
        wanted: &[0, 30],
    },
    Case {
        set: &[1],
        steps: &[BACK, OUT],
        wanted: &[101, 134],
    },
];

#[test]
fn a_binding_may_end_where_it_began(rt: HostRuntime) -> Result<(), Fail> {
    assert_eq!(rt; holding(rt.alloc(), CHAIN, THERE_AND_BACK)?, 2);
    Ok(())
}

const OWN: Joined<'static> = Joined {
    directed: true,
    persons: 2,
    pairs: &[(0, 0), (0, 1)],
};

const EACH_WAY: &[Case<'static>] = &[
    Case {
        set: &[0],
        steps: &[EACH],
        wanted: &[0, 0, 11],
    },
    Case {
        set: &[0],
        steps: &[OUT],
        wanted: &[0, 11],
    },
];

#[test]
fn a_directed_self_loop_is_walked_once_each_way(rt: HostRuntime) -> Result<(), Fail> {
    assert_eq!(rt; holding(rt.alloc(), OWN, EACH_WAY)?, 2);
    Ok(())
}

const NEAR: Joined<'static> = Joined {
    directed: false,
    persons: 2,
    pairs: &[(0, 1), (1, 1)],
};

const ONCE: Case<'static> = Case {
    set: &[0, 1],
    steps: &[EITHER],
    wanted: &[1, 100, 111],
};

#[test]
fn an_undirected_self_loop_is_walked_once(rt: HostRuntime) -> Result<(), Fail> {
    assert!(rt; holds(rt.alloc(), NEAR, ONCE)?);
    Ok(())
}

const NAMED_TWICE: Case<'static> = Case {
    set: &[0],
    steps: &[TWICE, OUT],
    wanted: &[12, 45],
};

#[test]
fn a_way_that_stands_twice_counts_once(rt: HostRuntime) -> Result<(), Fail> {
    assert!(rt; holds(rt.alloc(), CHAIN, NAMED_TWICE)?);
    Ok(())
}

const STRAY: Joined<'static> = Joined {
    directed: true,
    persons: 6,
    pairs: &[(9, 0), (0, 9), (1, 0)],
};

const NOT_THERE: &[Case<'static>] = &[
    Case {
        set: &[0, 1, 9],
        steps: &[OUT],
        wanted: &[120],
    },
    Case {
        set: &[0],
        steps: &[NO_TYPE, OUT],
        wanted: &[],
    },
];

#[test]
fn what_is_not_there_is_not_walked(rt: HostRuntime) -> Result<(), Fail> {
    assert_eq!(rt; holding(rt.alloc(), STRAY, NOT_THERE)?, 2);
    Ok(())
}

// A row from a hub to each of its leaves.
fn rows_of(alloc: Global, leaves: u32) -> Result<Vec<(u32, u32)>, OutOfMemory> {
    let mut rows = Vec::new(alloc);
    for leaf in 0..leaves {
        rows.push((0, leaf.wrapping_add(1)))?;
    }
    Ok(rows)
}

// The number of paths of two steps from all to all of a hub and its leaves; None if there are too many.
fn star(alloc: Global, leaves: u32) -> Result<Option<u64>, Fail> {
    let rows = rows_of(alloc, leaves)?;
    let all: Vec<u32> = (0..leaves.wrapping_add(1)).collect(alloc)?;
    let joined = Joined {
        directed: false,
        persons: leaves.wrapping_add(1),
        pairs: &rows,
    };
    let case = Case {
        set: &all,
        steps: &[EITHER, EITHER],
        wanted: &[],
    };
    match measured(alloc, joined, case)? {
        Some(found) => Ok(Some(found.count)),
        None => Ok(None),
    }
}

// With one leaf more than the root of the bound, there are too many.
#[test]
fn a_star_has_at_most_as_many_paths_as_the_bound_lets(rt: HostRuntime) -> Result<(), Fail> {
    assert_eq!(rt; star(rt.alloc(), 2047)?, Some(4192256));
    assert_eq!(rt; star(rt.alloc(), 2048)?, None);
    Ok(())
}
