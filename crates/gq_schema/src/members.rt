// The members of a graph.
ghost use Rattle.std.specs.Option.{option_copied, option_map};
ghost use Rattle.gq_schema.specs.Refusals.{Judges, member_refusal};
ghost use Rattle.std.specs.Prelude.{◌≡◌, ◌<◌, ◌≤◌, ◌||◌, ◌&&◌, Bool, length, vec_len, map, filter, IfOk, OnOk, slice_index_or, false, if◌then◌else◌, ◌++◌, ◌∷◌, []};
ghost use Rattle.gq_graph.specs.Catalog.{name_place};
ghost use Rattle.gq_schema.specs.Members as spec;

use crate::catalog::Catalog;
use crate::fault::{SchemaFault, no_such_type};
use crate::names::NameTable;
use gq_base::{OutOfMemory, within};
use gq_graph::{GraphType, Names, Numbers};
use gq_value::Txt;
use std::alloc::Global;

/// Marks which names of a table are members.
pub(crate) fn listed(
    alloc: Global,
    table: &NameTable,
    members: &[Txt],
) -> Result<Vec<bool>, OutOfMemory>
    ensures { IfOk result (λ marks. marks.items ≡ map (spec.is_listed table.now members.now) (spec.below (length table.now))) }
{
    let mut marks = vec![in alloc; false; table.len()]?;
    for member in members {
        mark(&mut marks, table, member.as_str());
    }
    Ok(marks)
}

/// Returns the numbers below `count`.
pub(crate) fn all(alloc: Global, count: u32) -> Result<Numbers, OutOfMemory>
    ensures { IfOk result (λ numbers. numbers ≡ spec.below count) }
{
    let mut numbers = Numbers::new(alloc);
    for number in 0..count {
        numbers.push(number)?;
    }
    Ok(numbers)
}

/// Returns the numbers of the marks that are set.
pub(crate) fn chosen(alloc: Global, marks: &[bool]) -> Result<Numbers, OutOfMemory>
    ensures { IfOk result (λ numbers. numbers ≡ filter (λ k. slice_index_or marks.now k false) (spec.below (length marks.now))) }
{
    within(marks.len(), u32::MAX as usize)?;
    let mut numbers = Numbers::new(alloc);
    for number in 0..marks.len() {
        add_if(marks[number], &mut numbers, number as u32)?;
    }
    Ok(numbers)
}

fn mark(marks: &mut Vec<bool>, table: &NameTable, name: &str)
    requires { vec_len marks.old ≡ length table.now }
    ensures { marks.new.items ≡ spec.marked_by marks.old.items (name_place table.now name.now) }
{
    match table.find(name) {
        Some(number) => marks[number as usize] = true,
        None => {}
    }
}

fn add_if(wanted: bool, numbers: &mut Numbers, number: u32) -> Result<(), OutOfMemory>
    ensures { OnOk result (numbers.new ≡ numbers.old ++ (if wanted then number ∷ [] else [])) }
{
    if wanted {
        numbers.push(number)?;
    }
    Ok(())
}

fn is_marked(marks: &[bool], number: u32) -> bool
    ensures { result ≡ slice_index_or marks.now number false }
{
    marks.get(number as usize).copied().unwrap_or(false)
}

impl Catalog {
    /// Builds a graph of the members, or returns why it is refused.
    pub(crate) fn graph_type(
        &self,
        alloc: Global,
        name: &str,
        members: Option<&Names>,
    ) -> Result<GraphType, SchemaFault>
        ensures judged { Judges (member_refusal self.now (option_copied members.entry)) result }
        ensures made { IfOk result (λ g. g ≡ spec.graph_with self.now name.now (option_copied members.entry)) }
    {
        match members {
            Some(members) => self.graph_of_members(alloc, name, members.as_slice()),
            None => match self.whole_graph(alloc, name) {
                Ok(entry) => Ok(entry),
                Err(OutOfMemory) => Err(SchemaFault::OutOfMemory),
            },
        }
    }

    fn whole_graph(&self, alloc: Global, name: &str) -> Result<GraphType, OutOfMemory>
        ensures { IfOk result (λ g. g ≡ spec.graph_with self.now name.now None) }
    {
        Ok(GraphType {
            name: Txt::of(alloc, name)?,
            vertices: all(alloc, self.vertex_types.len() as u32)?,
            edges: all(alloc, self.edge_types.len() as u32)?,
        })
    }

    fn graph_of_members(
        &self,
        alloc: Global,
        name: &str,
        members: &[Txt],
    ) -> Result<GraphType, SchemaFault>
        ensures judged { Judges (member_refusal self.now (Some members.now)) result }
        ensures made { IfOk result (λ g. g ≡ spec.graph_with self.now name.now (Some members.now)) }
    {
        let marks = match self.vertex_marks(alloc, members) {
            Ok(marks) => marks,
            Err(OutOfMemory) => return Err(SchemaFault::OutOfMemory),
        };
        match self.check_members(alloc, members, &marks) {
            Ok(()) => {}
            Err(fault) => return Err(fault),
        }
        match self.marked_graph(alloc, name, members, &marks) {
            Ok(entry) => Ok(entry),
            Err(OutOfMemory) => Err(SchemaFault::OutOfMemory),
        }
    }

    fn vertex_marks(&self, alloc: Global, members: &[Txt]) -> Result<Vec<bool>, OutOfMemory>
        ensures { IfOk result (λ marks. marks.items ≡ spec.vertex_marks self.now members.now) }
    {
        listed(alloc, &self.vertex_names, members)
    }

    fn edge_marks(&self, alloc: Global, members: &[Txt]) -> Result<Vec<bool>, OutOfMemory>
        ensures { IfOk result (λ marks. marks.items ≡ spec.edge_marks self.now members.now) }
    {
        listed(alloc, &self.edge_names, members)
    }

    /// Checks that each member is a type, and that an edge type has its ends among the marked vertex types.
    fn check_members(
        &self,
        alloc: Global,
        members: &[Txt],
        marks: &[bool],
    ) -> Result<(), SchemaFault>
        requires { marks.now ≡ spec.vertex_marks self.now members.now }
        ensures { Judges (member_refusal self.now (Some members.now)) result }
    {
        for member in members {
            let name = member.as_str();
            if !self.fits(name, marks) {
                return Err(no_such_type(alloc, name));
            }
        }
        Ok(())
    }

    fn fits(&self, member: &str, marks: &[bool]) -> bool
        ensures { result ≡ spec.fits_marked self.now marks.now member.now }
    {
        if self.vertex_type(member).is_some() {
            return true;
        }
        match self.edge_type(member) {
            Some(number) => self.has_ends(number, marks),
            None => false,
        }
    }

    fn has_ends(&self, number: u32, marks: &[bool]) -> bool
        ensures { result ≡ spec.has_ends_marked self.now marks.now number }
    {
        match self.edge_types.get(number as usize) {
            Some(kind) => is_marked(marks, kind.from) && is_marked(marks, kind.to),
            None => is_marked(marks, 0) && is_marked(marks, 0),
        }
    }

    fn marked_graph(
        &self,
        alloc: Global,
        name: &str,
        members: &[Txt],
        marks: &[bool],
    ) -> Result<GraphType, OutOfMemory>
        requires { marks.now ≡ spec.vertex_marks self.now members.now }
        ensures { IfOk result (λ g. g ≡ spec.graph_with self.now name.now (Some members.now)) }
    {
        Ok(GraphType {
            name: Txt::of(alloc, name)?,
            vertices: self.member_vertices(alloc, members, marks)?,
            edges: self.member_edges(alloc, members)?,
        })
    }

    fn member_vertices(
        &self,
        alloc: Global,
        members: &[Txt],
        marks: &[bool],
    ) -> Result<Numbers, OutOfMemory>
        requires { marks.now ≡ spec.vertex_marks self.now members.now }
        ensures { IfOk result (λ numbers. numbers ≡ filter (spec.has_vertex self.now members.now) (spec.below (length self.now.vertex_types))) }
    {
        chosen(alloc, marks)
    }

    fn member_edges(&self, alloc: Global, members: &[Txt]) -> Result<Numbers, OutOfMemory>
        ensures { IfOk result (λ numbers. numbers ≡ filter (spec.has_edge self.now members.now) (spec.below (length self.now.edge_types))) }
    {
        let named = self.edge_marks(alloc, members)?;
        self.edges(alloc, &named)
    }

    fn edges(&self, alloc: Global, named: &[bool]) -> Result<Numbers, OutOfMemory>
        ensures { IfOk result (λ numbers. numbers ≡ filter (spec.has_edge_marked self.now named.now) (spec.below (length self.now.edge_types))) }
    {
        let mut numbers = Numbers::new(alloc);
        for number in 0..self.edge_types.len() as u32 {
            add_if(self.has_edge(number, named), &mut numbers, number)?;
        }
        Ok(numbers)
    }

    fn has_edge(&self, number: u32, named: &[bool]) -> bool
        requires { number < length self.now.edge_types }
        ensures { result ≡ spec.has_edge_marked self.now named.now number }
    {
        let kind = &self.edge_types[number as usize];
        is_marked(named, number)
            || is_pair_marked(named, kind.forward)
            || is_pair_marked(named, kind.reverse)
    }
}

fn is_pair_marked(marks: &[bool], number: Option<u32>) -> bool
    ensures { result ≡ spec.is_pair_marked marks.now number }
{
    match number {
        Some(number) => is_marked(marks, number),
        None => false,
    }
}
