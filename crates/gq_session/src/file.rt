// The file of arguments.
ghost use Rattle.std.specs.Prelude.{◌≡◌, Some, None};
ghost use Rattle.std.specs.Option.{option_copied};
ghost use Rattle.serde_json.specs.Data.{Members, object};
ghost use Rattle.gq_arguments.specs.Holds.{held};
ghost use Rattle.gq_arguments.specs.Objects.{IsObject};
ghost use Rattle.gq_session.specs.Arguments.{object_of};

use gq_arguments::Args;
use std::marker::Model;

/// The file of arguments of a run, read once. Contracts see its bytes.
#[derive(Drop)]
pub struct ArgsFile<'s> {
    args: &'s Args,
    bytes: Option<&'s [u8]>,
}

impl<'s> Model for ArgsFile<'s> {
    ghost use Rattle.std.specs.Prelude.{◌≡◌, ℕ, List, Option};
    ghost use Rattle.std.specs.Option.{option_copied};
    ghost use Rattle.std.specs.Coded.{codes};
    ghost use Rattle.gq_arguments.specs.Holds.{held};
    ghost use Rattle.gq_session.specs.Arguments.{object_of};

    ghost Value = { Option (List ℕ) };

    ghost coded = { Prim.hlevel codes };

    ghost view = { λ f. option_copied f.bytes };

    ghost invariant = { λ f. held f.args.now ≡ object_of (option_copied f.bytes) };
}

impl<'s> ArgsFile<'s> {
    /// Returns no file, for a run without arguments.
    pub fn none(args: &'s Args) -> ArgsFile<'s>
        requires { held args.now ≡ None }
        ensures { result ≡ None }
    {
        ArgsFile { args, bytes: None }
    }

    /// Returns the file with these bytes, from which the arguments were read.
    pub fn read(args: &'s Args, bytes: &'s [u8]) -> ArgsFile<'s>
        requires { (members : Members) × IsObject bytes.now members × (held args.now ≡ Some (object members)) }
        ensures { result ≡ Some bytes.now }
    {
        ArgsFile {
            args,
            bytes: Some(bytes),
        }
    }

    /// Returns the arguments that the file supplies for queries.
    pub fn given(&self) -> &'s Args
        ensures { held result.now ≡ object_of self.now }
    {
        self.args
    }

    /// Returns the bytes of the file, if one is named.
    pub fn bytes(&self) -> Option<&'s [u8]>
        ensures { option_copied result ≡ self.now }
    {
        self.bytes
    }
}
