// Scopes: how names come into view and leave it.
ghost use Rattle.std.specs.Prelude.{◌≡◌, ◌<◌, ◌-◌, OnOk, length, is_some, slice_set};
ghost use Rattle.gq_rules_meaning.specs.Expressions.{World};
ghost use Rattle.gq_rules_meaning.specs.States.{State, with_new, with_name};
ghost use Rattle.gq_plan_ir.specs.Reference.{Reference, Place};
ghost use Rattle.gq_plan_ir.specs.References.{same};
ghost use Rattle.gq_frame.specs.Names.{thing_in, thing_is};
ghost use Rattle.gq_frame.specs.Lives.{Lives, without};

use crate::frame::{Frame, Thing};
use gq_base::OutOfMemory;
use std::mem::replace;

/// The former content of a place, which a name hides.
#[derive(Drop)]
pub struct Undo {
    pub place: u32,
    pub was: Option<Thing>,
}

/// The frame of a running query, and what its visible names hide, with the last name's entry last.
#[derive(Drop)]
pub struct Live {
    pub frame: Frame,
    pub undo: Vec<Undo>,
}

impl Live {
    /// The number of visible names.
    #[tactic(auto, using(crate::proofs::LookupLemmas::as_many))]
    pub fn mark(&self) -> usize
        ensures { (s : State Reference) → Lives self.now s → result ≡ length s.names }
    {
        self.undo.len()
    }

    /// Declares a name, which hides an earlier one of the same place.
    pub fn declare(&mut self, place: u32, thing: Thing) -> Result<(), OutOfMemory>
        ensures names { OnOk result ((s : State Reference) → Lives self.old s → Lives self.new (with_new (Place place) (thing_is thing) s)) }
        ensures accums { self.new.frame.accums ≡ self.old.frame.accums }
    {
        self.reach(place)?;
        let was = replace(self.frame.things.at_mut(place as usize), Some(thing));
        self.undo.push(Undo { place, was })?;
        Ok(())
    }

    /// Adds places with nothing until the frame has this one.
    fn reach(&mut self, place: u32) -> Result<(), OutOfMemory>
        ensures there { OnOk result (place < length self.new.frame.things) }
        ensures names { OnOk result ((s : State Reference) → Lives self.old s → Lives self.new s) }
        ensures accums { self.new.frame.accums ≡ self.old.frame.accums }
    {
        for _more in self.frame.things.len()..place as usize + 1 {
            self.frame.things.push(None)?;
        }
        Ok(())
    }

    /// Assigns a value or a set to a name. A visible name keeps its scope; another name is declared.
    pub fn assign(&mut self, place: u32, thing: Thing) -> Result<(), OutOfMemory>
        ensures names { OnOk result ((world : World Reference) (s : State Reference) → world.words.same ≡ same → Lives self.old s
            → Lives self.new (with_name world (Place place) (thing_is thing) s)) }
        ensures accums { self.new.frame.accums ≡ self.old.frame.accums }
    {
        if self.has(place) {
            self.frame.things.set(place as usize, Some(thing));
            Ok(())
        } else {
            self.declare(place, thing)
        }
    }

    /// Whether a name is visible.
    pub fn has(&self, place: u32) -> bool
        ensures { result ≡ is_some (thing_in self.now.frame.things place) }
    {
        match self.frame.things.get(place as usize) {
            Some(Some(_)) => true,
            Some(None) | None => false,
        }
    }

    /// Removes names, the last one first, until `mark` are left. What they hid is visible again.
    pub fn leave(&mut self, mark: usize)
        ensures names { (s : State Reference) → Lives self.old s → Lives self.new (without (length s.names - mark) s) }
        ensures accums { self.new.frame.accums ≡ self.old.frame.accums }
    {
        for _turn in mark..self.mark() {
            self.leave_last();
        }
    }

    /// Removes the last name.
    fn leave_last(&mut self)
        ensures names { (s : State Reference) → Lives self.old s → Lives self.new (without 1 s) }
        ensures accums { self.new.frame.accums ≡ self.old.frame.accums }
    {
        if let Some(undo) = self.undo.pop() {
            self.restore(undo);
        }
    }

    /// Restores the former content of a place.
    fn restore(&mut self, undo: Undo)
        ensures things { self.new.frame.things ≡ slice_set self.old.frame.things undo.place undo.was }
        ensures accums { self.new.frame.accums ≡ self.old.frame.accums }
        ensures undo { self.new.undo.items ≡ self.old.undo.items }
    {
        let Undo { place, was } = undo;
        if (place as usize) < self.frame.things.len() {
            self.frame.things.set(place as usize, was);
        }
    }
}
