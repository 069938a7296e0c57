// Tuple types.
ghost use Rattle.std.specs.Prelude.{◌≡◌, length};

use gq_graph::Names;
use gq_value::Fields;

/// A tuple type of a query: the names of its fields, and their types.
#[derive(Drop)]
pub struct TupleType {
    pub names: Names,
    pub types: Fields,
    ghost each: { length names ≡ length types },
}
