//! Values of GSQL, the types of values, the kinds of accumulators, and the inputs that accumulators take.
//!
//! Everything here is data: structs and enums over numbers, texts, lists and boxes. Whole-number arithmetic
//! is exact: an operation gives the true result, or a fault if its type can't hold it. All values have one
//! total order.
//!
//! Read `specs/Val.antt` first: values as plain data, which all other definitions use. Then read
//! `specs/Order.antt`, `specs/Arithmetic.antt` and `specs/Typed.antt` (which values have a type). The code
//! begins in `src/value.rt`; types and accumulator kinds are in `src/kind.rt`, texts in `src/txt.rt`.
#![tactic(auto)]

mod arithmetic;
mod kind;
mod kind_copies;
mod order;
mod order_laws;
mod ordered;
mod txt;
mod value;

pub use arithmetic::{absolute, add, convert, div, mul, negate, rem, sub};
pub use kind::{BaseType, Fields, GroupShape, HeapShape, Input, Inputs, Kind, Number, Slot};
pub use order::{compare, same};
pub use order_laws::{order_is_total, orders_agree, places_are_apart};
pub use txt::Txt;
pub use value::{EvalFault, Fraction, Row, Value, Wrong, duplicate_row};
