// The arguments of a run.
ghost use Rattle.std.specs.Prelude.{◌≡◌, MatchResult, Some, None, option_map, option_and_then};
ghost use Rattle.serde_json.specs.Data.{Members, object};
ghost use Rattle.serde_json.specs.Find.{get};
ghost use Rattle.serde_json.specs.View.{view};
ghost use Rattle.gq_arguments.specs.Objects.{IsObject};
ghost use Rattle.gq_arguments.specs.Holds.{held};

use serde_json::Value;
use std::alloc::Global;
use thiserror::Error;

/// The arguments that a file supplies for queries.
#[derive(Drop)]
pub struct Args {
    object: Option<Value>,
}

/// Why a file of arguments can't be used.
#[derive(Clone, Copy, Debug, PartialEq, Eq, Error)]
pub enum ArgsFault {
    /// The file isn't a JSON object that `serde_json` can parse.
    #[error("arguments unreadable")]
    Unreadable,

    #[error("out of memory")]
    OutOfMemory,
}

impl Args {
    /// Returns no arguments, for a run without a file. Takes no memory.
    pub fn none() -> Args
        ensures { held result ≡ None }
    {
        Args { object: None }
    }

    /// Parses a file with these bytes. If a name occurs twice in an object, the last member counts.
    pub fn read(alloc: Global, bytes: &[u8]) -> Result<Args, ArgsFault>
        ensures { MatchResult result
            (λ args. (members : Members) × IsObject bytes.now members × (held args ≡ Some (object members)))
            (λ fault. fault ≡ ArgsFault.Unreadable → (members : Members) → IsObject bytes.now members → ⊥) }
    {
        let value = match Value::from_slice(alloc, bytes) {
            Ok(value) => value,
            Err(error) => {
                if error.is_memory() {
                    return Err(ArgsFault::OutOfMemory);
                }
                return Err(ArgsFault::Unreadable);
            }
        };
        if value.is_object() {
            Ok(Args {
                object: Some(value),
            })
        } else {
            Err(ArgsFault::Unreadable)
        }
    }

    /// Returns the value under the name of a query.
    pub fn of_query(&self, query: &str) -> Option<&Value>
        ensures { option_map (λ v. view v.now) result ≡ option_and_then (get query.now) (held self.now) }
    {
        match &self.object {
            Some(object) => object.get(query),
            None => None,
        }
    }
}
