// Queries that are prepared for their runs.
ghost use Rattle.std.specs.Prelude.{◌≡◌, ◌≢◌, ℕ, [], Some, true, is_some, OnOk, OnErr};
ghost use Rattle.gq_query_run.specs.Ready.{OthersStay, ready_at};

use gq_base::{List, OutOfMemory};
use std::alloc::Global;

/// What is prepared of a session's queries, by their places. It has to be cleared when the catalog or a query changes.
#[derive(Drop)]
pub struct Ready<P> {
    plans: List<Option<P>>,
}

impl<P: Drop> Ready<P> {
    /// Nothing is prepared; takes no memory.
    pub fn new(alloc: Global) -> Ready<P>
        ensures { result.plans ≡ [] }
    {
        Ready {
            plans: List::new(alloc),
        }
    }

    /// Nothing is prepared any more.
    pub fn clear(&mut self)
        ensures { self.new.plans ≡ [] }
    {
        self.plans.truncate(0);
    }

    /// Whether something is prepared of the query at a place.
    pub(crate) fn has(&self, place: usize) -> bool
        ensures { result ≡ is_some (ready_at self.now.plans place) }
    {
        match self.plans.get(place) {
            Some(Some(_)) => true,
            Some(None) | None => false,
        }
    }

    /// What is prepared of the query at a place.
    pub(crate) fn at(&self, place: usize) -> &P
        requires { is_some (ready_at self.now.plans place) ≡ true }
        ensures { ready_at self.now.plans place ≡ Some result.now }
    {
        match self.plans.get(place) {
            Some(Some(plan)) => plan,
            Some(None) | None => unreachable!(),
        }
    }

    /// Keeps what is prepared of the query at a place.
    pub(crate) fn put(&mut self, place: usize, plan: P) -> Result<(), OutOfMemory>
        ensures there { OnOk result (ready_at self.new.plans place ≡ Some plan) }
        ensures stays { OnErr result (ready_at self.new.plans place ≡ ready_at self.old.plans place) }
        ensures others { OthersStay self.old.plans self.new.plans place }
    {
        for _ in self.plans.len()..place {
            self.plans.push(None)?;
        }
        if self.plans.len() == place {
            return self.plans.push(Some(plan));
        }
        self.plans.set(place, Some(plan));
        Ok(())
    }
}
