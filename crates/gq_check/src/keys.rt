// The keys that a PRINT, or a selection in it, has used so far.
ghost use Rattle.std.specs.Prelude.{◌≡◌, ◌<◌, ◌++◌, ◌∷◌, [], IfOk, vec_len, vec_capacity};
ghost use Rattle.gq_rules_typing.specs.StatementTypes as spec;
ghost use Rattle.gq_check_from.specs.Faults.{Judges};

use gq_base::OutOfMemory;
use gq_check_from::{CheckFault, name_twice};
use std::alloc::Global;
use std::collections::BTreeSet;
use std::marker::Model;

/// Distinct keys. Contracts see them as a list in reverse order.
#[derive(Drop)]
pub(crate) struct PrintKeys<'q> {
    given: Vec<&'q str>,
    known: BTreeSet<&'q str>,
}

impl<'q> Model for PrintKeys<'q> {
    ghost use Rattle.std.specs.Prelude.{List, ℕ};
    ghost use Rattle.gq_check.specs.Keyed.{IsKnown, newest_first};

    ghost Value = { List (List ℕ) };

    ghost view = { λ k. newest_first k.given.items };

    ghost invariant = { λ k. IsKnown (newest_first k.given.items) k.known };
}

impl<'q> PrintKeys<'q> {
    /// Returns an empty table.
    pub(crate) fn new(alloc: Global) -> PrintKeys<'q>
        ensures { result ≡ [] }
    {
        PrintKeys {
            given: Vec::new(alloc),
            known: BTreeSet::new(alloc),
        }
    }

    /// Adds a key, which must be new.
    pub(crate) fn give(&mut self, alloc: Global, key: &'q str) -> Result<(), CheckFault>
        ensures { Judges (λ _. self.new) (spec.new_key self.old key.now) result }
    {
        if self.known.contains(key) {
            return Err(name_twice(alloc, key));
        }
        self.push(key)?;
        Ok(())
    }

    /// Appends a key.
    fn push(&mut self, key: &'q str) -> Result<(), OutOfMemory>
        ensures { IfOk result (λ _. self.new ≡ key.now ∷ self.old) }
    {
        self.given.reserve(1)?;
        match self.known.insert(key) {
            Ok(_) => {}
            Err(_) => return Err(OutOfMemory),
        }
        put(&mut self.given, key);
        Ok(())
    }
}

/// Appends a key if there is room for it.
fn put<'q>(given: &mut Vec<&'q str>, key: &'q str)
    requires { vec_len given.old < vec_capacity given.old }
    ensures { given.new.items ≡ given.old.items ++ key.entry ∷ [] }
{
    match given.push(key) {
        Ok(()) => {}
        Err(_) => unreachable!(),
    }
}
