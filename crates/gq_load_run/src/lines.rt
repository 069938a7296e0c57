// Reports, and their line.
ghost use Rattle.std.specs.Prelude.{◌≡◌, ◌++◌, ◌∷◌, [], IfOk, OnOk, codes};
ghost use Rattle.gq_json.specs.declared.out.Out.TheVariants as out;
ghost use Rattle.gq_load_run.specs.Reports.{report_members, report_text};

use gq_base::OutOfMemory;
use gq_json::{Members, Out, Printed, json_line};
use gq_value::Txt;
use std::alloc::Global;

/// The report on the records of a file. The header isn't counted.
#[derive(Debug, Drop)]
pub struct FileReport {
    /// The path that was read.
    pub file: Txt,
    pub lines: u64,
    pub loaded: u64,
    pub short: u64,
    pub unreadable: u64,
}

/// Returns the line that a loading job with these reports prints, including the line feed.
pub fn report_line(alloc: Global, reports: &[FileReport]) -> Result<Vec<u8>, OutOfMemory>
    ensures { IfOk result (λ line. line.items ≡ report_text reports.now) }
{
    let mut printed = Vec::with_capacity(alloc, reports.len())?;
    for report in reports {
        let members = report_members(alloc, report)?;
        printed.push(Printed { members })?;
    }
    json_line(alloc, &printed)
}

fn report_members(alloc: Global, report: &FileReport) -> Result<Members, OutOfMemory>
    ensures { IfOk result (λ members. members ≡ report_members report.now) }
{
    let mut members = Members::new(alloc);
    let file = Txt::of(alloc, report.file.as_str())?;
    members.push((Txt::of(alloc, "file")?, Out::Text(file)))?;
    push_count(alloc, &mut members, "lines", report.lines)?;
    push_count(alloc, &mut members, "loaded", report.loaded)?;
    push_count(alloc, &mut members, "short", report.short)?;
    push_count(alloc, &mut members, "unreadable", report.unreadable)?;
    Ok(members)
}

fn push_count(
    alloc: Global,
    members: &mut Members,
    name: &str,
    count: u64,
) -> Result<(), OutOfMemory>
    ensures { OnOk result (members.new ≡ members.old ++ (name.now, out.UInt count) ∷ []) }
{
    members.push((Txt::of(alloc, name)?, Out::UInt(count)))?;
    Ok(())
}
