// The files that a job defines, with a fast lookup by name.
ghost use Rattle.std.specs.Prelude.{◌≡◌, ◌++◌, ◌∷◌, [], IfOk, None, OnOk, position};
ghost use Rattle.std.specs.Option.{option_copied};
ghost use Rattle.gq_load_check.specs.Lines as view;
ghost use Rattle.gq_load_check.specs.Paths as spec;
ghost use Rattle.gq_load_check.specs.Placed.{FilesPlaced, file_added, is_file, with_file};

use gq_base::{List, OutOfMemory};
use gq_tree::JobLine;
use gq_value::Txt;
use std::alloc::Global;
use std::collections::BTreeMap;
use std::marker::Model;

/// The files of a job: each name once, with the path if the job defines one. Contracts see them as a list.
#[derive(Drop)]
pub struct JobFiles {
    files: List<(Txt, Option<Txt>)>,

    /// The index of the file with each name.
    places: BTreeMap<String, usize>,
}

impl Model for JobFiles {
    ghost use Rattle.std.specs.Prelude.{List};
    ghost use Rattle.std.specs.Coded.{codes};
    ghost use Rattle.gq_load_check.specs.Paths.{File};
    ghost use Rattle.gq_load_check.specs.Placed.{FilesPlaced};

    ghost Value = { List File };

    ghost coded = { Prim.hlevel codes };

    ghost view = { λ f. f.files };

    ghost invariant = { λ f. FilesPlaced f.files f.places };
}

impl JobFiles {
    /// Returns the files that the lines define.
    #[tactic(auto, using(crate::proofs::FileLemmas::file_laws))]
    pub(crate) fn of(alloc: Global, lines: &[JobLine]) -> Result<JobFiles, OutOfMemory>
        ensures { IfOk result (λ files. files ≡ view.files_of lines.now) }
    {
        let mut files = List::new(alloc);
        let mut places = BTreeMap::new(alloc);
        for place in (0..lines.len()).rev() {
            add_file(alloc, &lines[place], &mut files, &mut places)?;
        }
        Ok(JobFiles { files, places })
    }

    /// Whether there is a file with the name.
    #[tactic(auto, using(crate::proofs::FileLemmas::file_laws))]
    pub(crate) fn has(&self, name: &str) -> bool
        ensures { result ≡ spec.has_file self.now name.now }
    {
        self.place(name).is_some()
    }

    /// Returns the path that the job defines for the name.
    pub(crate) fn path(&self, name: &str) -> Option<&str>
        ensures { option_copied result ≡ spec.defined_path self.now name.now }
    {
        match self.file(name) {
            Some(file) => path(&file.1),
            None => None,
        }
    }

    /// Returns the file with the name.
    #[tactic(auto, using(crate::proofs::FileLemmas::file_laws))]
    fn file(&self, name: &str) -> Option<&(Txt, Option<Txt>)>
        ensures { option_copied result ≡ spec.file_of self.now name.now }
    {
        match self.place(name) {
            Some(place) => self.files.get(place),
            None => None,
        }
    }

    /// Returns the index of the file with the name.
    fn place(&self, name: &str) -> Option<usize>
        ensures { result ≡ position (is_file name.now) self.now }
    {
        self.places.get(name).copied()
    }
}

fn path(path: &Option<Txt>) -> Option<&str>
    ensures { option_copied result ≡ path.now }
{
    match path {
        Some(path) => Some(path.as_str()),
        None => None,
    }
}

fn path_copy(alloc: Global, path: &Option<Txt>) -> Result<Option<Txt>, OutOfMemory>
    ensures { IfOk result (λ copy. copy ≡ path.now) }
{
    match path {
        Some(path) => Ok(Some(Txt::of(alloc, path.as_str())?)),
        None => Ok(None),
    }
}

/// Adds the file that a line defines, unless there is one with its name.
fn add_file(
    alloc: Global,
    line: &JobLine,
    files: &mut List<(Txt, Option<Txt>)>,
    places: &mut BTreeMap<String, usize>,
) -> Result<(), OutOfMemory>
    requires { FilesPlaced files.old places.old }
    ensures added { OnOk result (files.new ≡ file_added line.now files.old) }
    ensures placed { OnOk result (FilesPlaced files.new places.new) }
{
    match line {
        JobLine::Define(name, path) => define(alloc, name, path, files, places),
        JobLine::Load(_) => Ok(()),
    }
}

#[tactic(auto, using(crate::proofs::FileLemmas::file_laws))]
fn define(
    alloc: Global,
    name: &Txt,
    path: &Option<Txt>,
    files: &mut List<(Txt, Option<Txt>)>,
    places: &mut BTreeMap<String, usize>,
) -> Result<(), OutOfMemory>
    requires { FilesPlaced files.old places.old }
    ensures added { OnOk result (files.new ≡ with_file files.old name.now path.now) }
    ensures placed { OnOk result (FilesPlaced files.new places.new) }
{
    match places.get(name.as_str()) {
        Some(_) => Ok(()),
        None => append(alloc, name, path, files, places),
    }
}

/// Appends a file with a new name.
fn append(
    alloc: Global,
    name: &Txt,
    path: &Option<Txt>,
    files: &mut List<(Txt, Option<Txt>)>,
    places: &mut BTreeMap<String, usize>,
) -> Result<(), OutOfMemory>
    requires new { position (is_file name.now) files.old ≡ None }
    requires placed { FilesPlaced files.old places.old }
    ensures added { OnOk result (files.new ≡ files.old ++ (name.now, path.now) ∷ []) }
    ensures placed { OnOk result (FilesPlaced files.new places.new) }
{
    let key = String::from_str(alloc, name.as_str())?;
    match places.insert(key, files.len()) {
        Ok(_) => {}
        Err(_) => return Err(OutOfMemory),
    }
    let name = Txt::of(alloc, name.as_str())?;
    files.push((name, path_copy(alloc, path)?))
}
