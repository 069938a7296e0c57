// New entries of the catalog.
ghost use Rattle.std.specs.Prelude.{◌≡◌, ◌<◌, ◌≤◌, ◌+◌, ◌++◌, [], ◌∷◌, length, map, All, true, Some, None, IfOk, OnOk, MatchResult, vec_len, vec_capacity, option_to_list};
ghost use Rattle.std.specs.Option.{option_map, option_copied, ForSome};
ghost use Rattle.gq_graph.specs.Defaults.{is_plain, has_good_default, settled};
ghost use Rattle.gq_graph.specs.Catalog.{vertex_names, edge_names, graph_names, name_place, edge_type_with};

use crate::attributes::add_settled;
use crate::names::NameTable;
use gq_base::{List, OutOfMemory, narrow, within};
use gq_graph::{Attribute, Attributes, EdgeType, GraphType, IdShape, VertexType};
use gq_value::Txt;
use std::alloc::Global;

/// Copies attributes, as the catalog keeps them.
fn settled_list(alloc: Global, attributes: &[Attribute]) -> Result<Attributes, OutOfMemory>
    requires plain { All (λ a. is_plain a ≡ true) attributes.now }
    requires good { All (λ a. has_good_default a ≡ true) attributes.now }
    ensures { IfOk result (λ l. l ≡ map settled attributes.now) }
{
    let mut copies = Vec::new(alloc);
    add_settled(alloc, &mut copies, attributes)?;
    Ok(List::from_vec(copies))
}

/// Builds an edge type: its ends, its forward or reverse type, and its attributes, those of the key first.
pub(crate) fn edge_type(
    alloc: Global,
    name: &str,
    directed: bool,
    ends: (u32, u32),
    pair: (Option<u32>, Option<u32>),
    key: &[Attribute],
    rest: &[Attribute],
) -> Result<EdgeType, OutOfMemory>
    requires plain_key { All (λ a. is_plain a ≡ true) key.now }
    requires good_key { All (λ a. has_good_default a ≡ true) key.now }
    requires plain { All (λ a. is_plain a ≡ true) rest.now }
    requires good { All (λ a. has_good_default a ≡ true) rest.now }
    ensures { IfOk result (λ t. t ≡ edge_type_with name.now directed ends.0 ends.1 pair.0 pair.1 (length key.now) (key.now ++ rest.now)) }
{
    let discriminators = narrow(key.len())?;
    let mut copies = Vec::new(alloc);
    add_settled(alloc, &mut copies, key)?;
    add_settled(alloc, &mut copies, rest)?;
    Ok(EdgeType {
        name: Txt::of(alloc, name)?,
        directed,
        from: ends.0,
        to: ends.1,
        forward: pair.0,
        reverse: pair.1,
        discriminators,
        attributes: List::from_vec(copies),
    })
}

/// The number of the reverse type, if one is declared: the one after the forward type's.
pub(crate) fn number_behind(reverse: Option<&str>, number: u32) -> Option<u32>
    requires { number < 4294967295 }
    ensures { result ≡ option_map (λ _. number + 1) (option_copied reverse.entry) }
{
    match reverse {
        Some(_) => Some(number + 1),
        None => None,
    }
}

/// Builds the reverse type, if one is declared.
pub(crate) fn backward_type(
    alloc: Global,
    reverse: Option<&str>,
    directed: bool,
    ends: (u32, u32),
    forward: u32,
    key: &[Attribute],
    rest: &[Attribute],
) -> Result<Option<EdgeType>, OutOfMemory>
    requires plain_key { All (λ a. is_plain a ≡ true) key.now }
    requires good_key { All (λ a. has_good_default a ≡ true) key.now }
    requires plain { All (λ a. is_plain a ≡ true) rest.now }
    requires good { All (λ a. has_good_default a ≡ true) rest.now }
    ensures { IfOk result (λ o. o ≡ option_map (λ name. edge_type_with name directed ends.0 ends.1 (Some forward) None (length key.now) (key.now ++ rest.now)) (option_copied reverse.entry)) }
{
    match reverse {
        Some(name) => {
            let entry = edge_type(
                alloc,
                name,
                directed,
                ends,
                (Some(forward), None),
                key,
                rest,
            )?;
            Ok(Some(entry))
        }
        None => Ok(None),
    }
}

/// Builds a vertex type.
pub(crate) fn vertex_type(
    alloc: Global,
    name: &str,
    id: &IdShape,
    attributes: &[Attribute],
) -> Result<VertexType, OutOfMemory>
    requires plain { All (λ a. is_plain a ≡ true) attributes.now }
    requires good { All (λ a. has_good_default a ≡ true) attributes.now }
    ensures { IfOk result (λ t. t ≡ record { name = name.now; id = id.now; attributes = map settled attributes.now }) }
{
    Ok(VertexType {
        name: Txt::of(alloc, name)?,
        id: IdShape {
            name: Txt::of(alloc, id.name.as_str())?,
            kind: id.kind,
            shown: id.shown,
        },
        attributes: settled_list(alloc, attributes)?,
    })
}

/// Appends a vertex type.
pub(crate) fn append_vertex_type(
    names: &mut NameTable,
    types: &mut Vec<VertexType>,
    entry: VertexType,
) -> Result<u32, OutOfMemory>
    requires named { names.old ≡ vertex_names types.old.items }
    requires new { name_place names.old entry.name ≡ None }
    requires few { vec_len types.old < 256 }
    ensures named { names.new ≡ vertex_names types.new.items }
    ensures done { MatchResult result
        (λ n. (n ≡ length types.old.items) × (types.new.items ≡ types.old.items ++ entry ∷ []))
        (λ _. types.new.items ≡ types.old.items) }
{
    let number = types.len() as u32;
    types.reserve(1)?;
    names.push(entry.name.as_str())?;
    put_vertex_type(types, entry);
    Ok(number)
}

fn put_vertex_type(types: &mut Vec<VertexType>, entry: VertexType)
    requires { vec_len types.old < vec_capacity types.old }
    ensures { types.new.items ≡ types.old.items ++ entry ∷ [] }
{
    match types.push(entry) {
        Ok(()) => {}
        Err(_) => unreachable!(),
    }
}

/// Appends an edge type, and its reverse type after it.
pub(crate) fn append_edge_types(
    names: &mut NameTable,
    types: &mut Vec<EdgeType>,
    forward: EdgeType,
    backward: Option<EdgeType>,
) -> Result<u32, OutOfMemory>
    requires named { names.old ≡ edge_names types.old.items }
    requires new { name_place names.old forward.name ≡ None }
    requires apart { ForSome backward (λ t. name_place (names.old ++ forward.name ∷ []) t.name ≡ None) }
    requires few { vec_len types.old < 256 }
    ensures named { names.new ≡ edge_names types.new.items }
    ensures done { MatchResult result
        (λ n. (n ≡ length types.old.items) × (types.new.items ≡ types.old.items ++ forward ∷ option_to_list backward))
        (λ _. types.new.items ≡ types.old.items) }
    ensures count { length types.new.items ≤ length types.old.items + 1 + length (option_to_list backward) }
{
    let number = types.len() as u32;
    types.reserve(2)?;
    names.push(forward.name.as_str())?;
    match backward {
        Some(backward) => {
            match names.push(backward.name.as_str()) {
                Ok(()) => {}
                Err(OutOfMemory) => {
                    names.cut(number as usize);
                    return Err(OutOfMemory);
                }
            }
            put_edge_type(types, forward);
            put_edge_type(types, backward);
        }
        None => put_edge_type(types, forward),
    }
    Ok(number)
}

fn put_edge_type(types: &mut Vec<EdgeType>, entry: EdgeType)
    requires { vec_len types.old < vec_capacity types.old }
    ensures items { types.new.items ≡ types.old.items ++ entry ∷ [] }
    ensures len { vec_len types.new ≡ vec_len types.old + 1 }
    ensures room { vec_capacity types.old ≤ vec_capacity types.new }
{
    match types.push(entry) {
        Ok(()) => {}
        Err(_) => unreachable!(),
    }
}

/// Appends a graph. Also returns `OutOfMemory` past the last number of 32 bits.
pub(crate) fn append_graph(
    names: &mut NameTable,
    graphs: &mut Vec<GraphType>,
    entry: GraphType,
) -> Result<u32, OutOfMemory>
    requires named { names.old ≡ graph_names graphs.old.items }
    requires new { name_place names.old entry.name ≡ None }
    requires few { length graphs.old.items < 4294967296 }
    ensures named { names.new ≡ graph_names graphs.new.items }
    ensures few { length graphs.new.items < 4294967296 }
    ensures done { MatchResult result
        (λ n. (n ≡ length graphs.old.items) × (graphs.new.items ≡ graphs.old.items ++ entry ∷ []))
        (λ _. graphs.new.items ≡ graphs.old.items) }
{
    within(graphs.len(), u32::MAX as usize - 1)?;
    let number = graphs.len() as u32;
    graphs.reserve(1)?;
    names.push(entry.name.as_str())?;
    put_graph(graphs, entry);
    Ok(number)
}

fn put_graph(graphs: &mut Vec<GraphType>, entry: GraphType)
    requires { vec_len graphs.old < vec_capacity graphs.old }
    ensures { graphs.new.items ≡ graphs.old.items ++ entry ∷ [] }
{
    match graphs.push(entry) {
        Ok(()) => {}
        Err(_) => unreachable!(),
    }
}
