// Jobs by name.
ghost use Rattle.std.specs.Prelude.{◌≡◌, ◌↔◌, ◌<◌, ◌++◌, [], ◌∷◌, All, IfSome, IsTrue, MatchResult, false, length, position};
ghost use Rattle.std.specs.Option.{option_copied};
ghost use Rattle.gq_graph.specs.Catalog.{Schema};
ghost use Rattle.gq_load_check.specs.Fits.{LineFits};
ghost use Rattle.gq_schema.specs.Kept.{name_at};
ghost use Rattle.gq_ddl.specs.Fitting.{JobsFit};
ghost use Rattle.gq_ddl.specs.Jobs as spec;
ghost use Rattle.gq_ddl.specs.Placed.{names_of};

use gq_base::{List, OutOfMemory};
use gq_load_check::Job;
use gq_value::Txt;
use std::alloc::Global;
use std::collections::BTreeMap;
use std::marker::Model;

/// A loading job with its name.
#[derive(Drop)]
pub struct NamedJob {
    pub name: Txt,
    pub job: Job,
}

/// The loading jobs of a session, with distinct names, in the order in which they were created. Contracts see them as
/// a list.
#[derive(Drop)]
pub struct Jobs {
    entries: List<NamedJob>,

    /// The index of the job with each name. May also hold the name of a job that there was no memory for.
    places: BTreeMap<String, usize>,
}

impl Model for Jobs {
    ghost use Rattle.std.specs.Prelude.{List};
    ghost use Rattle.std.specs.Coded.{codes};
    ghost use Rattle.gq_value.specs.contracts.value.Value as value;
    ghost use Rattle.gq_value.specs.contracts.kind.BaseType as base;
    ghost use Rattle.gq_ddl.specs.declared.named.NamedJob.{NamedJob};
    ghost use Rattle.gq_ddl.specs.Placed.{ArePlaced};

    ghost Value = { List NamedJob };

    ghost coded = { Prim.hlevel (codes, value.the_row.coded, base.the_row.coded) };

    ghost view = { λ j. j.entries };

    ghost invariant = { λ j. ArePlaced j.entries j.places };
}

impl Jobs {
    /// No jobs, which take no memory.
    pub fn new(alloc: Global) -> Jobs
        ensures { result ≡ [] }
    {
        Jobs {
            entries: List::new(alloc),
            places: BTreeMap::new(alloc),
        }
    }

    /// Returns the job with a name.
    pub fn find(&self, name: &str) -> Option<&Job>
        ensures found { option_copied result ≡ spec.job_named self.now name.now }
        ensures fits { (schema : Schema) → JobsFit schema self.now → IfSome result (λ job. All (LineFits schema) job.now.lines) }
    {
        match self.entry_of(name) {
            Some(entry) => Some(&entry.job),
            None => None,
        }
    }

    /// Whether there is a job with the name.
    #[tactic(auto, using(crate::proofs::PlaceLemmas::place_laws))]
    pub(crate) fn has(&self, name: &str) -> bool
        ensures { result ≡ spec.has_job self.now name.now }
    {
        self.place_of(name).is_some()
    }

    /// Returns the job with a name, and its name.
    #[tactic(auto, using(crate::proofs::PlaceLemmas::place_laws))]
    fn entry_of(&self, name: &str) -> Option<&NamedJob>
        ensures { option_copied result ≡ spec.entry_of self.now name.now }
    {
        match self.place_of(name) {
            Some(place) => self.entries.get(place),
            None => None,
        }
    }

    /// Returns the index of the job with a name.
    fn place_of(&self, name: &str) -> Option<usize>
        ensures { result ≡ position (spec.is_named name.now) self.now }
    {
        match self.places.get(name) {
            Some(place) if stands_at(self.entries.as_slice(), *place, name) => Some(*place),
            _ => None,
        }
    }

    /// Appends a job with a new name. Unchanged after `OutOfMemory`.
    pub(crate) fn push(&mut self, alloc: Global, entry: NamedJob) -> Result<(), OutOfMemory>
        requires { spec.has_job self.old entry.name ≡ false }
        ensures { MatchResult result (λ _. self.new ≡ self.old ++ entry ∷ []) (λ _. self.new ≡ self.old) }
    {
        let key = String::from_str(alloc, entry.name.as_str())?;
        match self.places.insert(key, self.entries.len()) {
            Ok(_) => {}
            Err(_) => return Err(OutOfMemory),
        }
        self.entries.push(entry)
    }
}

/// Whether the job at an index has that name.
#[tactic(auto, using(crate::proofs::PlaceLemmas::place_laws))]
fn stands_at(jobs: &[NamedJob], place: usize, name: &str) -> bool
    ensures { IsTrue result ↔ (place < length (names_of jobs.now)) × (name_at (names_of jobs.now) place ≡ name.now) }
{
    match jobs.get(place) {
        Some(entry) => entry.name.as_str() == name,
        None => false,
    }
}
