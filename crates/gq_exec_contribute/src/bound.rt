// Binds the aliases of a candidate.
ghost use Rattle.std.specs.Prelude.{◌≡◌, ◌++◌, ◌<◌, ◌≤◌, ◌+◌, length, map, take};
ghost use Rattle.std.specs.Option.{option_map, option_to_list};
ghost use Rattle.gq_frame.specs.Names.{alias_of};
ghost use Rattle.gq_exec_contribute.specs.Aliases.{edge_bound, target_bound, bound_to};

use gq_exec_source::{End, Ends};
use gq_frame::{Alias, Bound};
use gq_graph::Candidate;

/// A placeholder for the entries of an alias row that isn't filled yet.
pub fn no_alias<'a>() -> Alias<'a> {
    Alias {
        place: 0,
        is: Bound::Edge(0, 0),
    }
}

/// Writes the aliases of a candidate to the start of a row, innermost first, and returns their number.
#[tactic(auto, using(crate::proofs::BoundLemmas::bind_laws))]
pub fn bind<'a>(
    row: &mut [Alias<'a>; 3],
    ends: &'a Ends,
    edge: Option<u32>,
    candidate: Candidate,
) -> usize
    ensures few { result ≤ 3 }
    ensures len { length row.new ≡ 3 }
    ensures bound { map alias_of (take result row.new) ≡ bound_to ends.entry.now edge candidate }
{
    let count = put(row, 0, target_alias(&ends.target, candidate.target));
    let count = put(row, count, edge_alias(edge, candidate.edge, candidate.kind));
    put(row, count, ends.source.alias(candidate.source))
}

/// Writes an alias, if there is one, at index `count`, and returns the new count.
#[tactic(auto, using(crate::proofs::BoundLemmas::put_laws))]
fn put<'a>(row: &mut [Alias<'a>; 3], count: usize, alias: Option<Alias<'a>>) -> usize
    requires { count < 3 }
    ensures few { result ≤ count + 1 }
    ensures len { length row.new ≡ length row.old }
    ensures put { map alias_of (take result row.new) ≡ map alias_of (take count row.old) ++ option_to_list (option_map alias_of alias.entry) }
{
    match alias {
        Some(alias) => {
            row[count] = alias;
            count + 1
        }
        None => count,
    }
}

fn target_alias<'a>(end: &'a End, vertex: Option<u32>) -> Option<Alias<'a>>
    ensures { option_map alias_of result ≡ target_bound end.entry.now vertex }
{
    match vertex {
        Some(vertex) => end.alias(vertex),
        None => None,
    }
}

fn edge_alias<'a>(place: Option<u32>, row: Option<u32>, kind: Option<u32>) -> Option<Alias<'a>>
    ensures { option_map alias_of result ≡ edge_bound place row kind }
{
    match place {
        None => None,
        Some(place) => match row {
            None => None,
            Some(row) => match kind {
                None => None,
                Some(kind) => Some(Alias {
                    place,
                    is: Bound::Edge(row, kind),
                }),
            },
        },
    }
}
