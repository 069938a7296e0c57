// Destinations with the fields of their values.
ghost use Rattle.std.specs.Prelude.{◌≡◌, ◌<◌, length, map, IfOk, All};
ghost use Rattle.std.specs.Option.{option_copied};
ghost use Rattle.gq_load_csv.specs.Fields.{default_of};
ghost use Rattle.gq_load_check.specs.Targets.{HasTarget};
ghost use Rattle.gq_load.specs.Columns as spec;
ghost use Rattle.gq_load_check.specs.declared.job.LoadInto.{LoadInto};
ghost use Rattle.gq_load.specs.Routes.{route_of, from_defaults, to_defaults, defaults_of};
ghost use Rattle.gq_load.specs.Records.{AllHaveEnds};

use crate::column::fields;
use crate::fault::LoadFault;
use gq_base::{List, OutOfMemory};
use gq_graph::Attribute;
use gq_load_check::{LoadInto, Target};
use gq_load_csv::{Record, default_value};
use gq_schema::Catalog;
use gq_value::Row;
use std::alloc::Global;

/// A destination of a line, with the field of each of its values.
#[derive(Drop)]
pub struct Route {
    pub target: Target,
    /// The number of the field of each value, or None for the attribute's default.
    pub fields: List<Option<u64>>,
    /// The attributes that an edge's FROM vertex gets if it doesn't exist.
    pub from: Row,
    /// The attributes that an edge's TO vertex gets if it doesn't exist.
    pub to: Row,
}

/// Returns the routes of a line's destinations, by the file's header, or the first column name that the header lacks.
pub fn routes(
    alloc: Global,
    catalog: &Catalog,
    header: Option<&Record<'_>>,
    destinations: &[LoadInto],
) -> Result<Vec<Route>, LoadFault>
    requires there { All (λ (into : LoadInto). HasTarget catalog.now into.target) destinations.now }
    requires ends { AllHaveEnds catalog.now }
    ensures names { spec.Names (spec.missing_name (option_copied header.entry) (spec.columns_of destinations.now)) result }
    ensures routes { IfOk result (λ routes. routes.items ≡
        map (route_of catalog.now (option_copied header.entry)) destinations.now) }
{
    let mut routes = Vec::new(alloc);
    for into in destinations {
        let fields = match fields(alloc, header, into.columns.as_slice()) {
            Ok(fields) => fields,
            Err(fault) => return Err(fault),
        };
        let route = match made_route(alloc, catalog, into.target, fields) {
            Ok(route) => route,
            Err(OutOfMemory) => return Err(LoadFault::OutOfMemory),
        };
        match routes.push(route) {
            Ok(()) => {}
            Err(_) => return Err(LoadFault::OutOfMemory),
        }
    }
    Ok(routes)
}

fn made_route(
    alloc: Global,
    catalog: &Catalog,
    target: Target,
    fields: List<Option<u64>>,
) -> Result<Route, OutOfMemory>
    requires there { HasTarget catalog.now target }
    requires ends { AllHaveEnds catalog.now }
    ensures { IfOk result (λ route. route ≡
        record { target = target; fields = fields; from = from_defaults catalog.now target; to = to_defaults catalog.now target }) }
{
    let (from, to) = match target {
        Target::Vertex(_) => (List::new(alloc), List::new(alloc)),
        Target::Edge(kind) => {
            let edge = catalog.edge_at(kind);
            (
                defaults(alloc, catalog, edge.from)?,
                defaults(alloc, catalog, edge.to)?,
            )
        }
    };
    Ok(Route {
        target,
        fields,
        from,
        to,
    })
}

/// Returns the defaults of a vertex type's attributes.
fn defaults(alloc: Global, catalog: &Catalog, kind: u32) -> Result<Row, OutOfMemory>
    requires { kind < length catalog.now.vertex_types }
    ensures { IfOk result (λ row. row ≡ defaults_of catalog.now kind) }
{
    default_row(alloc, catalog.vertex_at(kind).attributes.as_slice())
}

/// Returns the defaults of these attributes.
pub fn default_row(alloc: Global, attributes: &[Attribute]) -> Result<Row, OutOfMemory>
    ensures { IfOk result (λ row. row ≡ map default_of attributes.now) }
{
    let mut row = List::from_vec(Vec::with_capacity(alloc, attributes.len())?);
    for attribute in attributes {
        row.push(default_value(alloc, attribute)?)?;
    }
    Ok(row)
}
