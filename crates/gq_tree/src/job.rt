// The trees of loading jobs.
use gq_base::List;
use gq_value::Txt;

/// Where a LOAD reads from.
#[derive(Drop)]
pub enum FileTree {
    /// A name that a DEFINE gives.
    Defined(Txt),
    Path(Txt),
}

/// Whether rows go to a vertex or an edge type.
#[derive(Clone, Copy, Debug, PartialEq, Eq)]
pub enum Table {
    Vertex,
    Edge,
}

/// The column of a file that a value comes from.
#[derive(Drop)]
pub enum Column {
    /// `$0` and so on, counted from 0.
    Number(u64),

    /// `$"name"`, by the file's header.
    Named(Txt),

    /// `_`: the attribute's default.
    Default,
}

/// TO: a type, and a column for each of its values.
#[derive(Drop)]
pub struct Destination {
    pub table: Table,
    pub name: Txt,
    pub columns: List<Column>,
}

/// The name of an option after USING.
#[derive(Clone, Copy, Debug, PartialEq, Eq)]
pub enum LoadOption {
    Separator,
    Header,
    Quote,
    Eol,
}

/// LOAD.
#[derive(Drop)]
pub struct LoadTree {
    pub file: FileTree,
    pub destinations: List<Destination>,
    pub options: List<(LoadOption, Txt)>,
}

/// A line of a job.
#[derive(Drop)]
pub enum JobLine {
    /// DEFINE FILENAME: a name, and its path if one is given.
    Define(Txt, Option<Txt>),
    Load(LoadTree),
}

/// CREATE LOADING JOB.
#[derive(Drop)]
pub struct JobTree {
    pub name: Txt,
    pub graph: Txt,
    pub lines: List<JobLine>,
}

/// RUN LOADING JOB: the job, and paths for names of files.
#[derive(Drop)]
pub struct RunJobTree {
    pub name: Txt,
    pub paths: List<(Txt, Txt)>,
}
