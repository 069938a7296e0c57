// Checked jobs: plain data, which contracts see unchanged.
ghost use Rattle.std.specs.Prelude.{◌≡◌};

use crate::files::JobFiles;
use gq_base::List;
use gq_tree::Column;
use gq_value::Txt;

/// Where a LOAD reads from.
#[derive(Drop)]
pub enum FileName {
    /// A name that the job defines.
    Defined(Txt),
    Path(Txt),
}

/// The type that rows are loaded into, by its number in the catalog. An edge type isn't a reverse type.
#[derive(Clone, Copy, Debug, PartialEq, Eq)]
pub enum Target {
    Vertex(u32),
    Edge(u32),
}

/// A destination of a LOAD: a type, and a column for each value of its rows: the id of a vertex or both ids of an edge,
/// then the attributes in order of declaration.
#[derive(Drop)]
pub struct LoadInto {
    pub target: Target,
    pub columns: List<Column>,
}

/// A checked LOAD.
#[derive(Drop)]
pub struct LoadLine {
    pub file: FileName,
    /// The byte between two fields: ASCII, and not LF, CR or the quote.
    pub separator: u8,
    /// Whether the first record names the columns.
    pub header: bool,
    /// The byte that may enclose a field: `"`, `'` or none.
    pub quote: Option<u8>,
    pub destinations: List<LoadInto>,
}

/// A checked loading job: each file name once, with the path if the job defines one, and the LOADs in source
/// order.
#[derive(Drop)]
pub struct Job {
    pub files: JobFiles,
    pub lines: List<LoadLine>,
}

impl LoadLine {
    /// Returns where the line reads from.
    pub fn file(&self) -> &FileName
        ensures { result.now ≡ self.now.file }
    {
        &self.file
    }
}
