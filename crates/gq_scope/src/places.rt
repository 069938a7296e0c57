// Visible names, each with a place.
ghost use Rattle.std.specs.Prelude.{◌≡◌, ◌≤◌, [], length, MatchResult};
ghost use Rattle.std.specs.Option.{is_some};
ghost use Rattle.gq_scope.specs.Named.{seen_at, place_at, is_marked, with_name, kept};

use crate::names::NameTable;
use gq_base::{OutOfMemory, within};
use std::alloc::Global;
use std::marker::Model;

/// The place of a visible name, and whether it is marked; set variables are.
#[derive(Clone, Copy, Debug, PartialEq, Eq)]
pub struct NameBinding {
    pub place: u32,
    pub marked: bool,
}

/// The visible names with their places, and the next place. Contracts see the names in reverse order.
#[derive(Drop)]
pub struct Places {
    table: NameTable<NameBinding>,
    next: u32,
}

impl Model for Places {
    ghost use Rattle.std.specs.Prelude.{reverse};
    ghost use Rattle.gq_scope.specs.Named.{Named};

    ghost Value = { Named };

    ghost view = { λ p. record { visible = reverse p.table; next = p.next } };
}

impl Places {
    /// Returns an empty table.
    pub fn new(alloc: Global) -> Places
        ensures { result ≡ record { visible = []; next = 0 } }
    {
        Places {
            table: NameTable::new(alloc),
            next: 0,
        }
    }

    /// The number of visible names.
    #[tactic(auto, using(crate::proofs::TurnLemmas::turn_laws))]
    pub fn len(&self) -> u32
        ensures { result ≡ length self.now.visible }
    {
        self.table.len()
    }

    /// Finds the last entry that was added under a name.
    pub fn find(&self, name: &str) -> Option<NameBinding>
        ensures { result ≡ seen_at self.now name.now }
    {
        match self.table.find(name) {
            None => None,
            Some(seen) => Some(*seen),
        }
    }

    /// The place of a name.
    pub fn place(&self, name: &str) -> Option<u32>
        ensures { result ≡ place_at self.now name.now }
    {
        match self.table.find(name) {
            None => None,
            Some(seen) => Some(seen.place),
        }
    }

    /// Whether a name is visible and marked.
    pub fn is_marked(&self, name: &str) -> bool
        ensures { result ≡ is_marked self.now name.now }
    {
        match self.table.find(name) {
            None => false,
            Some(seen) => seen.marked,
        }
    }

    /// Adds a name, marked or not, at the next place, and returns the place. Unchanged after `OutOfMemory`, which is
    /// also returned past the last place of 32 bits.
    #[tactic(auto, using(crate::proofs::TurnLemmas::turn_laws))]
    pub fn add(&mut self, name: &str, marked: bool) -> Result<u32, OutOfMemory>
        ensures given { MatchResult result (λ place. place ≡ self.old.next) (λ _. self.new ≡ self.old) }
        ensures added { MatchResult result (λ _. self.new ≡ with_name self.old name.now marked) (λ _. self.new ≡ self.old) }
    {
        within(self.next as usize, u32::MAX as usize - 1)?;
        let place = self.next;
        self.table.push(name, NameBinding { place, marked })?;
        self.next = place + 1;
        Ok(place)
    }

    /// Removes all names but the first `len`; their places aren't reused.
    #[tactic(auto, using(crate::proofs::TurnLemmas::turn_laws))]
    pub fn cut(&mut self, len: u32)
        requires { len ≤ length self.old.visible }
        ensures { self.new ≡ kept len self.old }
    {
        self.table.cut(len);
    }
}
