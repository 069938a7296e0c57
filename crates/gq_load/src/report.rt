// Reports of loads.
ghost use Rattle.std.specs.Prelude.{◌≡◌, ◌+◌, ◌++◌, [], ◌∷◌, List, IfOk};
ghost use Rattle.gq_load.specs.declared.record.Verdict.{Verdict};
ghost use Rattle.gq_load.specs.Records.{Judged, verdict_of};
ghost use Rattle.gq_load.specs.Reports.{report_of};

use crate::record::Verdict;
use gq_base::{OutOfMemory, within};

/// The number of records of a file, without its header, and how they were judged.
#[derive(Clone, Copy, Debug, PartialEq, Eq)]
pub struct Report {
    pub lines: u64,
    pub loaded: u64,
    /// Records that lack the field of a value.
    pub short: u64,
    /// Records with a value that can't be read.
    pub unreadable: u64,
}

impl Report {
    /// Returns the report of no records.
    pub(crate) fn none() -> Report
        ensures { result ≡ report_of [] }
    {
        Report {
            lines: 0,
            loaded: 0,
            short: 0,
            unreadable: 0,
        }
    }
}

/// Counts one more record in a report. Returns `OutOfMemory` past 2^64 - 1 records.
pub(crate) fn with_record(report: Report, verdict: Verdict) -> Result<Report, OutOfMemory>
    ensures { IfOk result (λ more. (records : List Judged) (judged : Judged) → report ≡ report_of records → verdict ≡
        verdict_of judged → more ≡ report_of (records ++ judged ∷ [])) }
{
    let Report {
        lines,
        loaded,
        short,
        unreadable,
    } = report;
    let lines = one_more(lines)?;
    match verdict {
        Verdict::Short => Ok(Report {
            lines,
            loaded,
            short: one_more(short)?,
            unreadable,
        }),
        Verdict::Unreadable => Ok(Report {
            lines,
            loaded,
            short,
            unreadable: one_more(unreadable)?,
        }),
        Verdict::Loaded => Ok(Report {
            lines,
            loaded: one_more(loaded)?,
            short,
            unreadable,
        }),
    }
}

fn one_more(count: u64) -> Result<u64, OutOfMemory>
    ensures { IfOk result (λ more. more ≡ count + 1) }
{
    within(count as usize, usize::MAX - 1)?;
    Ok(count + 1)
}
