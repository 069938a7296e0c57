// Rows read straight from a line, whose fields aren't cut first.
ghost use Rattle.std.specs.Prelude.{◌≡◌, ◌≤◌, ◌<◌, ◌+◌, ◌++◌, ◌∷◌, [], ℕ, ℤ, Bool, List, Option, Some, All, length, take, slice_set, true, false, IfOk, IfSome, option_and_then};
ghost use Rattle.gq_load_csv.specs.Fields.{TellsTimes};
ghost use Rattle.gq_load_check.specs.Targets.{HasTarget, attributes_of};
ghost use Rattle.gq_load.specs.declared.route.Route.{Route};
ghost use Rattle.gq_load.specs.Rows as spec;
ghost use Rattle.gq_load.specs.Drafts.{all_drafted, drafted, drafted_as, AreSized};
ghost use Rattle.gq_load.specs.Records.{AllHaveEnds, HasEnds, IsThere};
ghost use Rattle.gq_load.specs.Straight.{IsComplete, IsReadFrom};

use crate::draft::{Draft, edge_at, vertex_at};
use crate::overwrite::{write, write_int};
use crate::route::Route;
use gq_base::OutOfMemory;
use gq_graph::{Attribute, IdKind};
use gq_load_check::Target;
use gq_load_csv::{Id, Line, Records, default_value, read_key, read_value};
use gq_schema::Catalog;
use gq_value::{Row, Value};
use std::alloc::Global;

/// Whether the columns of each route stand in the order of their fields, so that reading straight can succeed.
pub(crate) fn are_rising(routes: &[Route]) -> bool {
    for route in routes {
        if !is_rising(route.fields.as_slice()) {
            return false;
        }
    }
    true
}

fn is_rising(sources: &[Option<u64>]) -> bool {
    let mut least = 0;
    for source in sources {
        if let Some(number) = source {
            if *number < least {
                return false;
            }
            least = number.saturating_add(1);
        }
    }
    true
}

/// Reads the rows of the next record straight from its line. Returns false if the record must be cut first, as where
/// columns stand in another order than their fields, or can't be read; then no record was taken.
///
/// There is a draft for each route.
#[inline(always)]
pub(crate) fn read_line<'a>(
    alloc: Global,
    catalog: &Catalog,
    routes: &[Route],
    records: &mut Records<'a>,
    drafts: &mut [Draft<'a>],
) -> Result<bool, OutOfMemory>
    requires there { All (IsThere catalog.now) routes.now }
    requires ends { AllHaveEnds catalog.now }
    requires complete { All (IsComplete catalog.now) routes.now }
    requires count { length drafts.old ≡ length routes.now }
    ensures reads { IfOk result (λ ok. ok ≡ true → IsReadFrom catalog.now routes.now records.old records.new drafts.new) }
    ensures stays { IfOk result (λ ok. ok ≡ false → records.new ≡ records.old) }
    ensures sized { IfOk result (λ ok. ok ≡ true → AreSized catalog.now routes.now drafts.new) }
{
    let mut line = match records.line() {
        Some(line) => line,
        None => return Ok(false),
    };
    match read_rows(alloc, catalog, routes, &mut line, drafts) {
        Ok(true) => {}
        Ok(false) => return Ok(false),
        Err(OutOfMemory) => return Err(OutOfMemory),
    }
    records.go_behind(line);
    Ok(true)
}

/// Reads the rows of all routes. Returns false if the record must be cut.
#[inline(always)]
fn read_rows<'a>(
    alloc: Global,
    catalog: &Catalog,
    routes: &[Route],
    line: &mut Line<'a>,
    drafts: &mut [Draft<'a>],
) -> Result<bool, OutOfMemory>
    requires there { All (IsThere catalog.now) routes.now }
    requires ends { AllHaveEnds catalog.now }
    requires count { length drafts.old ≡ length routes.now }
    ensures same { line.new ≡ line.old }
    ensures reads { IfOk result (λ ok. ok ≡ true → (read : List ℕ → Option ℤ) → TellsTimes read →
        spec.steps_of read catalog.now routes.now line.old.fields ≡ Some (all_drafted catalog.now routes.now drafts.new)) }
    ensures sized { IfOk result (λ ok. ok ≡ true → AreSized catalog.now routes.now drafts.new) }
{
    for place in 0..routes.len() {
        line.restart();
        match read_row(alloc, catalog, &routes[place], line, &mut drafts[place]) {
            Ok(true) => {}
            Ok(false) => return Ok(false),
            Err(OutOfMemory) => return Err(OutOfMemory),
        }
    }
    Ok(true)
}

/// Reads the row of a route. Returns false if the record must be cut.
#[inline(always)]
fn read_row<'a>(
    alloc: Global,
    catalog: &Catalog,
    route: &Route,
    line: &mut Line<'a>,
    draft: &mut Draft<'a>,
) -> Result<bool, OutOfMemory>
    requires there { HasTarget catalog.now route.now.target }
    requires ends { AllHaveEnds catalog.now }
    ensures same { line.new ≡ line.old }
    ensures reads { IfOk result (λ ok. ok ≡ true → (read : List ℕ → Option ℤ) → TellsTimes read →
        spec.steps_along read catalog.now route.now line.old.fields ≡ Some (drafted catalog.now route.now draft.new)) }
    ensures sized { IfOk result (λ ok. ok ≡ true → length draft.new.row ≡ length (attributes_of catalog.now route.now.target)) }
{
    match route.target {
        Target::Vertex(kind) => vertex_in(
            alloc,
            catalog,
            kind,
            route.fields.as_slice(),
            line,
            draft,
        ),
        Target::Edge(kind) => edge_in(alloc, catalog, kind, route.fields.as_slice(), line, draft),
    }
}

#[inline(always)]
fn vertex_in<'a>(
    alloc: Global,
    catalog: &Catalog,
    kind: u32,
    sources: &[Option<u64>],
    line: &mut Line<'a>,
    draft: &mut Draft<'a>,
) -> Result<bool, OutOfMemory>
    requires there { HasTarget catalog.now (Target.Vertex kind) }
    ensures same { line.new ≡ line.old }
    ensures reads { IfOk result (λ ok. ok ≡ true → (read : List ℕ → Option ℤ) (route : Route) → TellsTimes read →
        spec.steps_by read catalog.now route (Target.Vertex kind) sources.now line.old.fields ≡
        Some (drafted_as catalog.now (Target.Vertex kind) route draft.new)) }
    ensures sized { IfOk result (λ ok. ok ≡ true → length draft.new.row ≡ length (attributes_of catalog.now (Target.Vertex kind))) }
{
    let (id, sources) = match sources {
        [id, sources @ ..] => (*id, sources),
        [] => return Ok(false),
    };
    let shape = vertex_at(catalog, kind);
    if !lend_id(&mut draft.from, shape.id.kind, id, line) {
        return Ok(false);
    }
    values_in(
        alloc,
        0,
        shape.attributes.as_slice(),
        sources,
        line,
        &mut draft.row,
    )
}

#[inline(always)]
fn edge_in<'a>(
    alloc: Global,
    catalog: &Catalog,
    kind: u32,
    sources: &[Option<u64>],
    line: &mut Line<'a>,
    draft: &mut Draft<'a>,
) -> Result<bool, OutOfMemory>
    requires there { HasTarget catalog.now (Target.Edge kind) }
    requires ends { HasEnds catalog.now kind }
    ensures same { line.new ≡ line.old }
    ensures reads { IfOk result (λ ok. ok ≡ true → (read : List ℕ → Option ℤ) (route : Route) → TellsTimes read →
        spec.steps_by read catalog.now route (Target.Edge kind) sources.now line.old.fields ≡
        Some (drafted_as catalog.now (Target.Edge kind) route draft.new)) }
    ensures sized { IfOk result (λ ok. ok ≡ true → length draft.new.row ≡ length (attributes_of catalog.now (Target.Edge kind))) }
{
    let (from, to, sources) = match sources {
        [from, to, sources @ ..] => (*from, *to, sources),
        [] | [_] => return Ok(false),
    };
    let edge = edge_at(catalog, kind);
    if !lend_id(
        &mut draft.from,
        vertex_at(catalog, edge.from).id.kind,
        from,
        line,
    ) {
        return Ok(false);
    }
    if !lend_id(&mut draft.to, vertex_at(catalog, edge.to).id.kind, to, line) {
        return Ok(false);
    }
    values_in(
        alloc,
        edge.discriminators,
        edge.attributes.as_slice(),
        sources,
        line,
        &mut draft.row,
    )
}

/// Makes `id` a piece of the file. Returns false if the record must be cut.
#[inline(always)]
fn lend_id<'a>(id: &mut Id<'a>, kind: IdKind, source: Option<u64>, line: &mut Line<'a>) -> bool
    ensures same { line.new ≡ line.old }
    ensures reads { result ≡ true → spec.id_of kind source line.old.fields ≡ Some id.new }
{
    let number = match source {
        Some(number) => number,
        None => return false,
    };
    match line.id(number, kind) {
        Some(piece) => {
            id.lend(piece);
            true
        }
        None => false,
    }
}

/// Reads the values of attributes in order, of which the first `keys` are discriminators, over `values`, whose memory
/// is reused. Returns false if the record must be cut.
#[inline(always)]
fn values_in(
    alloc: Global,
    keys: u32,
    attributes: &[Attribute],
    sources: &[Option<u64>],
    line: &mut Line<'_>,
    values: &mut Row,
) -> Result<bool, OutOfMemory>
    ensures same { line.new ≡ line.old }
    ensures values { IfOk result (λ ok. ok ≡ true → (read : List ℕ → Option ℤ) → TellsTimes read →
        spec.values_of read keys attributes.now sources.now line.old.fields ≡ Some values.new) }
    ensures sized { IfOk result (λ ok. ok ≡ true → length values.new ≡ length attributes.now) }
{
    for (place, attribute) in attributes.iter().enumerate() {
        let source = match sources.get(place) {
            Some(source) => *source,
            None => return Ok(false),
        };
        if let Some(number) = int_in(attribute, source, line) {
            write_int(values, place, number)?;
        } else {
            let value = match value_in(alloc, place < keys as usize, attribute, source, line) {
                Ok(Some(value)) => value,
                Ok(None) => return Ok(false),
                Err(OutOfMemory) => return Err(OutOfMemory),
            };
            write(values, place, value)?;
        }
    }
    values.truncate(attributes.len());
    Ok(true)
}

/// Returns the value of an INT attribute, a discriminator or not, if its field is only a few digits. None says nothing
/// about the field.
#[inline(always)]
fn int_in(attribute: &Attribute, source: Option<u64>, line: &mut Line<'_>) -> Option<i64>
    ensures same { line.new ≡ line.old }
    ensures reads { IfSome result (λ n. (read : List ℕ → Option ℤ) (key : Bool) →
        spec.value_of read key attribute.now source line.old.fields ≡ Some (Value.Int n)) }
{
    match source {
        Some(number) => line.int(number, attribute),
        None => None,
    }
}

/// Returns the value of an attribute, or None if the record must be cut.
#[inline(never)]
fn value_in(
    alloc: Global,
    key: bool,
    attribute: &Attribute,
    source: Option<u64>,
    line: &mut Line<'_>,
) -> Result<Option<Value>, OutOfMemory>
    ensures same { line.new ≡ line.old }
    ensures reads { IfOk result (λ value. IfSome value (λ v. (read : List ℕ → Option ℤ) → TellsTimes read →
        spec.value_of read key attribute.now source line.old.fields ≡ Some v)) }
{
    let number = match source {
        Some(number) => number,
        None => return Ok(Some(default_value(alloc, attribute)?)),
    };
    let field = match line.field(number) {
        Some(field) => field,
        None => return Ok(None),
    };
    if key {
        read_key(alloc, attribute, field)
    } else {
        read_value(alloc, attribute, field)
    }
}
