// The file that a LOAD reads from.
ghost use Rattle.std.specs.Prelude.{◌≡◌, ◌<◌, length, IfOk};
ghost use Rattle.std.specs.Option.{option_copied};
ghost use Rattle.gq_load_run.specs.Loadings as spec;

use gq_base::OutOfMemory;
use gq_load_check::{FileName, GivenPaths, Job, JobFiles, path_of};
use gq_value::Txt;
use std::alloc::Global;

/// Where a LOAD reads from: a path, or a name without a path.
#[derive(Drop)]
pub enum LoadPath {
    At(Txt),
    Nowhere(Txt),
}

/// Returns where the LOAD with this number reads from, in a run that supplies these paths. LOADs are counted from 0.
#[tactic(auto, unfolding(crate::specs::Loadings::place_of))]
pub(crate) fn place(
    alloc: Global,
    job: &Job,
    given: &GivenPaths<'_>,
    number: usize,
) -> Result<LoadPath, OutOfMemory>
    requires { number < length job.now.lines }
    ensures { IfOk result (λ place. place ≡ spec.place_of job.now given.now number) }
{
    place_in(alloc, &job.files, given, job.lines.at(number).file())
}

fn place_in(
    alloc: Global,
    files: &JobFiles,
    given: &GivenPaths<'_>,
    file: &FileName,
) -> Result<LoadPath, OutOfMemory>
    ensures { IfOk result (λ place. place ≡ spec.place_in files.now given.now file.now) }
{
    match file {
        FileName::Defined(name) => path_or(alloc, name, path_of(files, given, name.as_str())),
        FileName::Path(path) => Ok(LoadPath::At(Txt::of(alloc, path.as_str())?)),
    }
}

fn path_or(alloc: Global, name: &Txt, path: Option<&str>) -> Result<LoadPath, OutOfMemory>
    ensures { IfOk result (λ place. place ≡ spec.path_or name.now (option_copied path.entry)) }
{
    match path {
        Some(path) => Ok(LoadPath::At(Txt::of(alloc, path)?)),
        None => Ok(LoadPath::Nowhere(Txt::of(alloc, name.as_str())?)),
    }
}
