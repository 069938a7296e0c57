// The rules that a declaration must pass.
ghost use Rattle.std.specs.Prelude.{◌≡◌, ◌<◌, ◌≤◌, ◌+◌, ◌++◌, [], ◌∷◌, length, All, true, Some, None, IfOk, OnOk};
ghost use Rattle.std.specs.Option.{option_copied};
ghost use Rattle.gq_graph.specs.Defaults.{has_good_default};
ghost use Rattle.gq_graph.specs.Catalog.{vertex_type_of, type_count};
ghost use Rattle.gq_schema.specs.Refusals as spec;

use crate::attributes::{check_defaults, check_names};
use crate::catalog::Catalog;
use crate::fault::{SchemaFault, graph_exists, name_taken, no_such_type};
use crate::names::NameTable;
use gq_base::OutOfMemory;
use gq_graph::{Attribute, IdShape};
use std::alloc::Global;

impl Catalog {
    fn is_type(&self, name: &str) -> bool
        ensures { result ≡ spec.is_type self.now name.now }
    {
        self.vertex_type(name).is_some() || self.edge_type(name).is_some()
    }

    fn check_free(&self, alloc: Global, name: &str) -> Result<(), SchemaFault>
        ensures { spec.Judges (spec.taken self.now name.now) result }
    {
        if self.is_type(name) {
            return Err(name_taken(alloc, name));
        }
        Ok(())
    }

    fn check_reverse(
        &self,
        alloc: Global,
        name: &str,
        reverse: Option<&str>,
    ) -> Result<(), SchemaFault>
        ensures { spec.Judges (spec.reverse_taken self.now name.now (option_copied reverse.entry)) result }
    {
        match reverse {
            Some(reverse) => {
                if reverse == name || self.is_type(reverse) {
                    return Err(name_taken(alloc, reverse));
                }
                Ok(())
            }
            None => Ok(()),
        }
    }

    fn check_end(&self, alloc: Global, name: &str) -> Result<u32, SchemaFault>
        ensures judged { spec.Judges (spec.no_end self.now name.now) result }
        ensures found { IfOk result (λ number. vertex_type_of self.now name.now ≡ Some number) }
    {
        match self.vertex_type(name) {
            Some(number) => Ok(number),
            None => Err(no_such_type(alloc, name)),
        }
    }

    fn check_room(&self, more: u32) -> Result<(), SchemaFault>
        requires { more ≤ 2 }
        ensures { spec.Judges (spec.too_many self.now more) result }
    {
        if self.type_count() + more > 256 {
            return Err(SchemaFault::TooMany);
        }
        Ok(())
    }

    /// Returns why a vertex type is refused, if it is.
    #[tactic(auto, using(crate::proofs::JudgeLemmas::judging))]
    pub(crate) fn check_vertex_type(
        &self,
        alloc: Global,
        name: &str,
        id: &IdShape,
        attributes: &[Attribute],
    ) -> Result<(), SchemaFault>
        ensures judged { spec.Judges (spec.vertex_refusal self.now name.now id.now attributes.now) result }
    {
        match self.check_free(alloc, name) {
            Ok(()) => {}
            Err(fault) => return Err(fault),
        }
        match check_vertex_attributes(alloc, id, attributes) {
            Ok(()) => {}
            Err(fault) => return Err(fault),
        }
        self.check_room(1)
    }

    /// Returns the ends of an edge type, or why it is refused.
    #[tactic(auto, using(crate::proofs::JudgeLemmas::judging))]
    pub(crate) fn check_edge_type(
        &self,
        alloc: Global,
        name: &str,
        from: &str,
        to: &str,
        reverse: Option<&str>,
        key: &[Attribute],
        rest: &[Attribute],
    ) -> Result<(u32, u32), SchemaFault>
        ensures judged { spec.Judges (spec.edge_refusal self.now name.now from.now to.now (option_copied reverse.entry) (key.now ++ rest.now)) result }
        ensures found { IfOk result (λ ends. (vertex_type_of self.now from.now ≡ Some ends.0) × (vertex_type_of self.now to.now ≡ Some ends.1)) }
    {
        match self.check_free(alloc, name) {
            Ok(()) => {}
            Err(fault) => return Err(fault),
        }
        match self.check_reverse(alloc, name, reverse) {
            Ok(()) => {}
            Err(fault) => return Err(fault),
        }
        let first = match self.check_end(alloc, from) {
            Ok(number) => number,
            Err(fault) => return Err(fault),
        };
        let second = match self.check_end(alloc, to) {
            Ok(number) => number,
            Err(fault) => return Err(fault),
        };
        match check_edge_attributes(alloc, key, rest) {
            Ok(()) => {}
            Err(fault) => return Err(fault),
        }
        match self.check_room(if reverse.is_some() { 2 } else { 1 }) {
            Ok(()) => {}
            Err(fault) => return Err(fault),
        }
        Ok((first, second))
    }

    pub(crate) fn check_graph(&self, alloc: Global, name: &str) -> Result<(), SchemaFault>
        ensures { spec.Judges (spec.graph_taken self.now name.now) result }
    {
        match self.graph(name) {
            Some(_) => Err(graph_exists(alloc, name)),
            None => Ok(()),
        }
    }
}

/// Checks the rules on a vertex type's attributes, with a shown id in front.
#[tactic(auto, using(crate::proofs::JudgeLemmas::judging))]
fn check_vertex_attributes(
    alloc: Global,
    id: &IdShape,
    attributes: &[Attribute],
) -> Result<(), SchemaFault>
    ensures { spec.Judges (spec.attribute_refusal (spec.shown_id id.now ++ spec.attribute_names attributes.now) attributes.now) result }
{
    match check_vertex_names(alloc, id, attributes) {
        Ok(()) => {}
        Err(fault) => return Err(fault),
    }
    check_defaults(alloc, attributes)
}

fn check_vertex_names(
    alloc: Global,
    id: &IdShape,
    attributes: &[Attribute],
) -> Result<(), SchemaFault>
    ensures { spec.Judges (spec.twice (spec.shown_id id.now ++ spec.attribute_names attributes.now)) result }
{
    let mut names = NameTable::new(alloc);
    if id.shown {
        match names.push(id.name.as_str()) {
            Ok(()) => {}
            Err(OutOfMemory) => return Err(SchemaFault::OutOfMemory),
        }
    }
    check_names(alloc, &mut names, attributes)
}

/// Checks the rules on an edge type's attributes, those of its key first.
#[tactic(auto, using(crate::proofs::JudgeLemmas::judging))]
fn check_edge_attributes(
    alloc: Global,
    key: &[Attribute],
    rest: &[Attribute],
) -> Result<(), SchemaFault>
    ensures { spec.Judges (spec.attribute_refusal (spec.attribute_names (key.now ++ rest.now)) (key.now ++ rest.now)) result }
{
    match check_edge_names(alloc, key, rest) {
        Ok(()) => {}
        Err(fault) => return Err(fault),
    }
    check_edge_defaults(alloc, key, rest)
}

fn check_edge_names(alloc: Global, key: &[Attribute], rest: &[Attribute]) -> Result<(), SchemaFault>
    ensures { spec.Judges (spec.twice (spec.attribute_names (key.now ++ rest.now))) result }
{
    let mut names = NameTable::new(alloc);
    match check_names(alloc, &mut names, key) {
        Ok(()) => {}
        Err(fault) => return Err(fault),
    }
    check_names(alloc, &mut names, rest)
}

fn check_edge_defaults(
    alloc: Global,
    key: &[Attribute],
    rest: &[Attribute],
) -> Result<(), SchemaFault>
    ensures { spec.Judges (spec.bad_default (key.now ++ rest.now)) result }
{
    match check_defaults(alloc, key) {
        Ok(()) => {}
        Err(fault) => return Err(fault),
    }
    check_defaults(alloc, rest)
}
