//! The built-in functions of GSQL, and the methods of its collections and vertex sets.
//!
//! Each function here implements one line of the definitions, `Calls.antt` or `Collections.antt` of
//! `gq_rules_meaning`. Time functions hold for any calendar that agrees with the specification in `gq_time`.
//!
//! Read `specs/Clock.antt` first, then `specs/Wants.antt` (the types to which arguments are converted),
//! `specs/Elements.antt` and `specs/Steps.antt`. Functions are called in `src/call.rt` and implemented in
//! `src/functions.rt` and `src/times.rt`; methods are in `src/method.rt`, `src/methods.rt` and `src/keys.rt`.
#![tactic(auto)]

mod call;
mod elements;
mod functions;
mod keys;
mod method;
mod methods;
mod times;

pub use call::{Arity, arity_of, units_later};
pub use functions::one;
pub use keys::{Wants, contains_key, get, key_wants, keys_wanted};
pub use method::{attached, degree_of, earlier, sized};
pub use methods::{contained, contains, counted, size};
pub use times::{datetime_add, datetime_diff};
