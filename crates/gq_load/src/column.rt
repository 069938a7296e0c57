// Field numbers of columns.
ghost use Rattle.std.specs.Prelude.{◌≡◌, bytes_eq, position, map, IfOk};
ghost use Rattle.std.specs.Option.{option_copied};
ghost use Rattle.gq_load.specs.Columns as spec;

use crate::fault::LoadFault;
use gq_base::{List, OutOfMemory};
use gq_load_csv::Record;
use gq_tree::Column;
use gq_value::Txt;
use std::alloc::Global;

/// Returns the number of each column's field, or the first name that the header lacks.
pub(crate) fn fields(
    alloc: Global,
    header: Option<&Record<'_>>,
    columns: &[Column],
) -> Result<List<Option<u64>>, LoadFault>
    ensures names { spec.Names (spec.missing_name (option_copied header.entry) columns.now) result }
    ensures fields { IfOk result (λ fields. fields ≡ map (spec.field_of (option_copied header.entry)) columns.now) }
{
    let mut fields = List::new(alloc);
    for column in columns {
        let field = match field_of(alloc, header, column) {
            Ok(field) => field,
            Err(fault) => return Err(fault),
        };
        match fields.push(field) {
            Ok(()) => {}
            Err(OutOfMemory) => return Err(LoadFault::OutOfMemory),
        }
    }
    Ok(fields)
}

fn field_of(
    alloc: Global,
    header: Option<&Record<'_>>,
    column: &Column,
) -> Result<Option<u64>, LoadFault>
    ensures names { spec.Names (spec.missing_one (option_copied header.entry) column.now) result }
    ensures field { IfOk result (λ field. field ≡ spec.field_of (option_copied header.entry) column.now) }
{
    match column {
        Column::Number(n) => Ok(Some(*n)),
        Column::Default => Ok(None),
        Column::Named(name) => match place_in(header, name.as_str()) {
            Some(place) => Ok(Some(place)),
            None => match Txt::of(alloc, name.as_str()) {
                Ok(name) => Err(LoadFault::NoColumn(name)),
                Err(OutOfMemory) => Err(LoadFault::OutOfMemory),
            },
        },
    }
}

fn place_in(header: Option<&Record<'_>>, name: &str) -> Option<u64>
    ensures { result ≡ spec.place_in (option_copied header.entry) name.now }
{
    match header {
        Some(header) => place(header, name.as_bytes()),
        None => None,
    }
}

/// Returns the index of the first field that equals the name.
fn place(header: &Record<'_>, name: &[u8]) -> Option<u64>
    ensures { result ≡ position (bytes_eq name.now) header.now }
{
    for n in 0..header.len() {
        match header.get(n) {
            Some(field) => {
                if name == field {
                    return Some(n as u64);
                }
            }
            None => {}
        }
    }
    None
}
