// The values of all parameters.
ghost use Rattle.std.specs.Prelude.{◌≡◌, ◌<◌, List, length, map, drop, option_map, slice_get, Some, bytes_eq, is_none};
ghost use Rattle.std.specs.Option.{ForSome};
ghost use Rattle.std.specs.List.{list_any};
ghost use Rattle.serde_json.specs.View.{view};
ghost use Rattle.gq_scope.specs.Held.{graph_in, sorts_in};
ghost use Rattle.gq_rules_typing.specs.Sorts.{sorts_of};
ghost use Rattle.gq_rules_typing.specs.Statements.{Bytes, Parameter as PlainParameter};
ghost use Rattle.gq_rules_typing.specs.StatementViews.{view_parameter};
ghost use Rattle.gq_rules_typing.specs.Words.{under};
ghost use Rattle.gq_rules_meaning.specs.Arguments as meaning;
ghost use Rattle.gq_rules_meaning.specs.Arguments.{values_of};
ghost use Rattle.gq_arguments.specs.Given.{view_argument, view_given};
ghost use Rattle.gq_arguments.specs.Members.{member_of, members_in};
ghost use Rattle.gq_arguments.specs.Places.{listed_or, named_argument};
ghost use Rattle.gq_arguments.specs.Rows as spec;
ghost use Rattle.gq_arguments.specs.Rows.{Gives, Tells, all_given, of_values, values_given};

use crate::given::{Given, default, listed, named};
use crate::value::value_of;
use gq_base::{List, OutOfMemory};
use gq_diagnostics::{Refusal, StatementFault};
use gq_schema::Catalog;
use gq_scope::Scope;
use gq_tree::{Argument, ParameterTree};
use gq_value::{Row, Txt};
use gq_vertex::Vertices;
use serde_json::Value as Json;
use std::alloc::Global;

/// The arguments of RUN QUERY.
#[derive(Clone, Copy)]
pub enum Arguments<'a> {
    /// In parentheses, in order of the parameters.
    Listed(&'a [Argument]),

    /// The members of the value under the query's name in the file.
    Named(Option<&'a Json>),
}

/// Returns the values of a query's parameters, for a run on this graph, given by number.
///
/// Refuses a wrong number of arguments in parentheses; else the first parameter whose argument isn't a value of its
/// type, whose vertex doesn't exist, or that has neither argument nor default.
pub fn argument_row(
    alloc: Global,
    catalog: &Catalog,
    graph: Option<u32>,
    vertices: &Vertices,
    parameters: &[ParameterTree],
    arguments: Arguments<'_>,
) -> Result<Row, StatementFault>
    requires { ForSome graph (λ g. g < length catalog.now.graphs) }
    ensures { Gives (values_given (sorts_of catalog.now (graph_in catalog.now graph)) vertices.now (map view_parameter parameters.now) arguments.entry) result }
{
    if wrong_number(parameters, arguments) {
        return Err(StatementFault::Refused(Refusal::WrongArguments));
    }
    let types = Scope::new(alloc, catalog, graph);
    fill(alloc, &types, vertices, parameters, arguments)
}

// Whether there are too many in parentheses, or a parameter without default gets none.
fn wrong_number(parameters: &[ParameterTree], arguments: Arguments<'_>) -> bool
    ensures { result ≡ spec.wrong_number (map view_parameter parameters.now) arguments.entry }
{
    match arguments {
        Arguments::Listed(listed) => wrong_count(parameters, listed),
        Arguments::Named(_) => false,
    }
}

fn wrong_count(parameters: &[ParameterTree], arguments: &[Argument]) -> bool
    ensures { result ≡ meaning.wrong_number (map view_parameter parameters.now) (map view_argument arguments.now) }
{
    arguments.len() > parameters.len() || lacks_default(parameters, arguments.len())
}

// Whether a parameter after the first `count` has no default.
fn lacks_default(parameters: &[ParameterTree], count: usize) -> bool
    ensures { result ≡ list_any (λ p. is_none p.default) (drop count parameters.now) }
{
    parameters
        .iter()
        .skip(count)
        .any(|parameter| parameter.default.is_none())
}

// Appends values one by one, up to the first that can't be made.
fn fill(
    alloc: Global,
    types: &Scope<'_>,
    vertices: &Vertices,
    parameters: &[ParameterTree],
    arguments: Arguments<'_>,
) -> Result<Row, StatementFault>
    ensures { Gives (of_values (values_of (sorts_in types.now) vertices.now (map view_parameter parameters.now) (all_given (map view_parameter parameters.now) arguments.entry))) result }
{
    let mut row = List::new(alloc);
    for place in 0..parameters.len() {
        let parameter = &parameters[place];
        let given = given_at(arguments, parameter, place);
        match value_of(alloc, types, vertices, &parameter.base, given)? {
            Some(value) => row.push(value)?,
            None => return Err(bad(alloc, parameter.name.as_str())),
        }
    }
    Ok(row)
}

// Returns the argument of the parameter at a place.
fn given_at<'a>(arguments: Arguments<'a>, parameter: &'a ParameterTree, place: usize) -> Given<'a>
    ensures { (ps : List (PlainParameter Bytes)) → slice_get ps place ≡ Some (view_parameter parameter.now) → slice_get (all_given ps arguments.entry) place ≡ Some (view_given result) }
{
    match arguments {
        Arguments::Listed(arguments) => listed_at(arguments, parameter, place),
        Arguments::Named(found) => named_at(found, parameter),
    }
}

fn listed_at<'a>(arguments: &'a [Argument], parameter: &'a ParameterTree, place: usize) -> Given<'a>
    ensures { view_given result ≡ listed_or (view_parameter parameter.now) (slice_get (map view_argument arguments.now) place) }
{
    match arguments.get(place) {
        Some(argument) => listed(argument),
        None => default(&parameter.default),
    }
}

fn named_at<'a>(found: Option<&'a Json>, parameter: &'a ParameterTree) -> Given<'a>
    ensures { view_given result ≡ named_argument (members_in (option_map (λ m. view m.now) found.entry)) (view_parameter parameter.now) }
{
    match member(found, parameter.name.as_str()) {
        Some(member) => named(&parameter.base, member),
        None => default(&parameter.default),
    }
}

// Returns the member with this name, if an object was found.
fn member<'a>(found: Option<&'a Json>, name: &str) -> Option<&'a Json>
    ensures { option_map (λ m. member_of (view m.now)) result ≡ under bytes_eq name.now (members_in (option_map (λ m. view m.now) found.entry)) }
{
    match found {
        Some(object) => object.get(name),
        None => None,
    }
}

// Returns `BadArgument` for the parameter, or `OutOfMemory` if its name can't be copied.
fn bad(alloc: Global, name: &str) -> StatementFault
    ensures { Tells (Refusal.BadArgument name.now) result }
{
    match Txt::of(alloc, name) {
        Ok(name) => StatementFault::Refused(Refusal::BadArgument(name)),
        Err(OutOfMemory) => StatementFault::OutOfMemory,
    }
}
