// Layouts.
ghost use Rattle.std.specs.Prelude.{◌≡◌, ◌<◌, [], ◌∷◌, ◌++◌, length, replicate, slice_get, Some, IfOk, OnOk, OnErr};

use gq_base::{List, OutOfMemory};
use gq_value::Kind;
use std::alloc::Global;
use std::marker::Model;

/// The kind of each target of a book, in order of number. Contracts see it as the list of the kinds.
///
/// Targets that are pushed together are stored as one run: a layout for a million vertices is as short as one for a
/// single vertex.
#[derive(Debug, Drop)]
pub struct Layout {
    runs: List<Run>,
}

/// A number of targets of the same kind.
#[derive(Debug, Drop)]
pub(crate) struct Run {
    pub kind: Kind,
    pub targets: u32,
}

impl Model for Layout {
    ghost use Rattle.std.specs.Prelude.{List};
    ghost use Rattle.std.specs.Coded.{coded_list};
    ghost use Rattle.gq_value.specs.declared.kind.Kind.{Kind};
    ghost use Rattle.gq_value.specs.contracts.kind.Kind as kind;
    ghost use Rattle.gq_stripe.specs.Runs.{kinds_in};

    ghost Value = { List Kind };

    ghost coded = { coded_list kind.the_row.coded };

    ghost view = { λ l. kinds_in l.runs };
}

impl Layout {
    ghost use Rattle.gq_stripe.specs.Runs.{kinds_in};

    /// Returns a layout without targets, which takes no memory.
    pub fn new(alloc: Global) -> Layout
        ensures { result ≡ [] }
    {
        Layout {
            runs: List::new(alloc),
        }
    }

    /// Appends a target of this kind. After `OutOfMemory` the layout is unchanged.
    pub fn push(&mut self, kind: Kind) -> Result<(), OutOfMemory>
        ensures ok { OnOk result (self.new ≡ self.old ++ kind ∷ []) }
        ensures err { OnErr result (self.new ≡ self.old) }
    {
        self.push_all(kind, 1)
    }

    /// Appends a number of targets of this kind, such as one for each vertex. After `OutOfMemory` the layout is
    /// unchanged.
    pub fn push_all(&mut self, kind: Kind, targets: u32) -> Result<(), OutOfMemory>
        ensures ok { OnOk result (self.new ≡ self.old ++ replicate targets kind) }
        ensures err { OnErr result (self.new ≡ self.old) }
    {
        self.runs.push(Run { kind, targets })
    }

    /// Returns the runs, in order.
    pub(crate) fn runs(&self) -> &[Run]
        ensures { kinds_in result.now ≡ self.now }
    {
        self.runs.as_slice()
    }

    /// Returns a copy of the layout.
    pub fn duplicate(&self, alloc: Global) -> Result<Layout, OutOfMemory>
        ensures { IfOk result (λ copy. copy ≡ self.now) }
    {
        let mut runs = List::new(alloc);
        for run in self.runs.as_slice() {
            runs.push(Run {
                kind: run.kind.duplicate(alloc)?,
                targets: run.targets,
            })?;
        }
        Ok(Layout { runs })
    }
}
