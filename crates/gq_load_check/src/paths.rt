// The paths that a run of a job supplies, and the path of a name in a run. Looking one up allocates nothing.
ghost use Rattle.std.specs.Prelude.{◌≡◌, ◌<◌, ◌+◌, IfOk, OnOk, find, length, reverse, take};
ghost use Rattle.std.specs.Option.{option_copied};
ghost use Rattle.gq_load_check.specs.Paths as spec;
ghost use Rattle.gq_load_check.specs.Placed.{LastPlaced, is_given};

use crate::files::JobFiles;
use gq_base::OutOfMemory;
use gq_value::Txt;
use std::alloc::Global;
use std::collections::BTreeMap;
use std::marker::Model;

/// The paths that a run supplies, with a fast lookup by name. Contracts see them as a list.
#[derive(Drop)]
pub struct GivenPaths<'a> {
    pairs: &'a [(Txt, Txt)],

    /// The index of the last pair with each name.
    places: BTreeMap<String, usize>,
}

impl<'a> Model for GivenPaths<'a> {
    ghost use Rattle.std.specs.Prelude.{List};
    ghost use Rattle.std.specs.Coded.{codes};
    ghost use Rattle.gq_load_check.specs.Paths.{Given};
    ghost use Rattle.gq_load_check.specs.Placed.{LastPlaced};

    ghost Value = { List Given };

    ghost coded = { Prim.hlevel codes };

    ghost view = { λ g. g.pairs.now };

    ghost invariant = { λ g. LastPlaced g.pairs.now g.pairs.now g.places };
}

impl<'a> GivenPaths<'a> {
    /// The paths of a run.
    pub fn of(alloc: Global, pairs: &'a [(Txt, Txt)]) -> Result<GivenPaths<'a>, OutOfMemory>
        ensures { IfOk result (λ given. given ≡ pairs.entry.now) }
    {
        match last_places(alloc, pairs) {
            Ok(places) => Ok(GivenPaths { pairs, places }),
            Err(OutOfMemory) => Err(OutOfMemory),
        }
    }

    /// Returns the path that the run supplies for the name: the last one, if there are several.
    fn path(&self, name: &str) -> Option<&'a str>
        ensures { option_copied result ≡ spec.given_path self.now name.now }
    {
        match self.pair(name) {
            Some(pair) => Some(pair.1.as_str()),
            None => None,
        }
    }

    /// Returns the last pair with the name.
    fn pair(&self, name: &str) -> Option<&'a (Txt, Txt)>
        ensures { option_copied result ≡ find (is_given name.now) (reverse self.now) }
    {
        match self.places.get(name) {
            Some(place) => self.pairs.get(*place),
            None => None,
        }
    }
}

/// Returns the index of the last pair with each name.
fn last_places(alloc: Global, pairs: &[(Txt, Txt)]) -> Result<BTreeMap<String, usize>, OutOfMemory>
    ensures { IfOk result (λ places. LastPlaced pairs.now pairs.now places) }
{
    let mut places = BTreeMap::new(alloc);
    for place in 0..pairs.len() {
        add_place(alloc, pairs, place, &mut places)?;
    }
    Ok(places)
}

fn add_place(
    alloc: Global,
    pairs: &[(Txt, Txt)],
    place: usize,
    places: &mut BTreeMap<String, usize>,
) -> Result<(), OutOfMemory>
    requires low { place < length pairs.now }
    requires placed { LastPlaced pairs.now (take place pairs.now) places.old }
    ensures { OnOk result (LastPlaced pairs.now (take (place + 1) pairs.now) places.new) }
{
    let key = String::from_str(alloc, pairs[place].0.as_str())?;
    match places.insert(key, place) {
        Ok(_) => {}
        Err(_) => return Err(OutOfMemory),
    }
    Ok(())
}

/// Returns the first name that a run supplies a path for although the job has no such file.
pub fn undefined<'a>(files: &JobFiles, given: &'a [(Txt, Txt)]) -> Option<&'a str>
    ensures { option_copied result ≡ spec.undefined_name files.now given.now }
{
    match given.iter().find(|pair| !files.has(pair.0.as_str())) {
        Some(pair) => Some(pair.0.as_str()),
        None => None,
    }
}

/// Returns the path of a name: the last one that the run supplies, or else the one that the job defines.
pub fn path_of<'a>(files: &'a JobFiles, given: &GivenPaths<'a>, name: &str) -> Option<&'a str>
    ensures { option_copied result ≡ spec.path_of files.now given.now name.now }
{
    match given.path(name) {
        Some(path) => Some(path),
        None => files.path(name),
    }
}
