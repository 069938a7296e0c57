// The values of a record's fields.
ghost use Rattle.std.specs.Prelude.{◌≡◌, ◌≤◌, ℕ, ℤ, Bool, List, Option, Some, None, length, true, IfOk, IfSome, if◌then◌else◌};
ghost use Rattle.gq_load_csv.specs.Fields.{TellsTimes};
ghost use Rattle.gq_load.specs.Rows as spec;

use gq_base::OutOfMemory;
use gq_graph::{Attribute, IdKind};
use gq_load_csv::{Id, Record, default_value, read_int, read_key, read_value};
use gq_value::{Row, Value};
use std::alloc::Global;

/// Reads the values of attributes in order, of which the first `keys` are discriminators, into `values`, whose memory
/// is reused. Returns false if a value can't be read.
pub(crate) fn read_values(
    alloc: Global,
    keys: u32,
    attributes: &[Attribute],
    sources: &[Option<u64>],
    row: &Record<'_>,
    values: &mut Row,
) -> Result<bool, OutOfMemory>
    ensures values { IfOk result (λ ok. (read : List ℕ → Option ℤ) → TellsTimes read →
        spec.values_of read keys attributes.now sources.now row.now ≡ (if ok then Some values.new else None)) }
    ensures sized { IfOk result (λ ok. ok ≡ true → length values.new ≡ length attributes.now) }
{
    values.truncate(0);
    for (place, attribute) in attributes.iter().enumerate() {
        let source = match sources.get(place) {
            Some(source) => *source,
            None => return Ok(false),
        };
        if let Some(number) = int_at(attribute, source, row) {
            values.push(Value::Int(number))?;
        } else {
            let value = match read_one(alloc, place < keys as usize, attribute, source, row) {
                Ok(Some(value)) => value,
                Ok(None) => return Ok(false),
                Err(OutOfMemory) => return Err(OutOfMemory),
            };
            values.push(value)?;
        }
    }
    Ok(true)
}

/// Returns the value of an INT attribute, a discriminator or not, if its field is only a few digits. None says nothing
/// about the field.
fn int_at(attribute: &Attribute, source: Option<u64>, row: &Record<'_>) -> Option<i64>
    ensures { IfSome result (λ n. (read : List ℕ → Option ℤ) (key : Bool) →
        spec.value_of read key attribute.now source row.now ≡ Some (Value.Int n)) }
{
    match source {
        Some(number) => match row.get(number as usize) {
            Some(field) => read_int(attribute, field),
            None => None,
        },
        None => None,
    }
}

fn read_one(
    alloc: Global,
    key: bool,
    attribute: &Attribute,
    source: Option<u64>,
    row: &Record<'_>,
) -> Result<Option<Value>, OutOfMemory>
    ensures { IfOk result (λ value. (read : List ℕ → Option ℤ) → TellsTimes read → value ≡
        spec.value_of read key attribute.now source row.now) }
{
    let number = match source {
        Some(number) => number,
        None => return Ok(Some(default_value(alloc, attribute)?)),
    };
    let field = match row.get(number as usize) {
        Some(field) => field,
        None => return Ok(None),
    };
    if key {
        read_key(alloc, attribute, field)
    } else {
        read_value(alloc, attribute, field)
    }
}

/// Reads an id into `id`. Returns false if it can't be read.
pub(crate) fn read_name<'a>(
    id: &mut Id<'a>,
    kind: IdKind,
    source: Option<u64>,
    row: &Record<'a>,
) -> Result<bool, OutOfMemory>
    ensures { IfOk result (λ ok. spec.id_of kind source row.now ≡ (if ok then Some id.new else None)) }
{
    let number = match source {
        Some(number) => number,
        None => return Ok(false),
    };
    id.read(kind, row, number as usize)
}
