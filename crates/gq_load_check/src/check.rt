// Checks whether a loading job can be run on a catalog.
ghost use Rattle.std.specs.Prelude.{◌≡◌, ◌<◌, ◌++◌, ◌∷◌, [], length, take, map, All, Some, IfOk, OnOk};
ghost use Rattle.std.specs.List.{list_any};
ghost use Rattle.gq_load_check.specs.Fits.{LineFits, is_default};
ghost use Rattle.gq_load_check.specs.Lines as view;
ghost use Rattle.gq_load_check.specs.Placed.{defining};
ghost use Rattle.gq_load_check.specs.Refusals as spec;
ghost use Rattle.gq_load_check.specs.Targets.{HasTarget};

use crate::fault::{JobFault, id_missing, no_such_type, unknown_file, wrong_count};
use crate::files::JobFiles;
use crate::job::{FileName, Job, LoadInto, LoadLine, Target};
use crate::options::{has_bad_option, header_of, quote_of, separator_of};
use crate::targets::{graph_at, name_count, target_of, value_count};
use gq_base::{List, OutOfMemory};
use gq_graph::GraphType;
use gq_schema::Catalog;
use gq_tree::{Column, Destination, FileTree, JobLine, JobTree, LoadTree};
use gq_value::Txt;
use std::alloc::Global;

fn is_default_column(column: &Column) -> bool
    ensures { result ≡ is_default column.now }
{
    matches!(column, Column::Default)
}

fn has_default(columns: &[Column], count: usize) -> bool
    ensures { result ≡ list_any is_default (take count columns.now) }
{
    columns
        .iter()
        .take(count)
        .any(|column| is_default_column(column))
}

fn column_copy(alloc: Global, column: &Column) -> Result<Column, OutOfMemory>
    ensures { IfOk result (λ copy. copy ≡ column.now) }
{
    match column {
        Column::Number(number) => Ok(Column::Number(*number)),
        Column::Named(name) => Ok(Column::Named(Txt::of(alloc, name.as_str())?)),
        Column::Default => Ok(Column::Default),
    }
}

fn column_copies(alloc: Global, columns: &[Column]) -> Result<List<Column>, OutOfMemory>
    ensures { IfOk result (λ copies. copies ≡ columns.now) }
{
    let mut copies = List::new(alloc);
    for column in columns {
        copies.push(column_copy(alloc, column)?)?;
    }
    Ok(copies)
}

fn file_of(alloc: Global, file: &FileTree) -> Result<FileName, OutOfMemory>
    ensures { IfOk result (λ name. name ≡ view.file_of file.now) }
{
    match file {
        FileTree::Defined(name) => Ok(FileName::Defined(Txt::of(alloc, name.as_str())?)),
        FileTree::Path(path) => Ok(FileName::Path(Txt::of(alloc, path.as_str())?)),
    }
}

fn check_options(load: &LoadTree) -> Result<(), JobFault>
    ensures { spec.Judges (spec.bad_option load.now.options) result }
{
    if has_bad_option(load.options.as_slice()) {
        return Err(JobFault::BadOption);
    }
    Ok(())
}

#[tactic(auto, using(crate::proofs::FileLemmas::file_laws))]
fn check_file(alloc: Global, files: &JobFiles, file: &FileTree) -> Result<(), JobFault>
    ensures { spec.Judges (spec.unknown_file (defining files.now) file.now) result }
{
    match file {
        FileTree::Defined(name) => {
            if !files.has(name.as_str()) {
                return Err(unknown_file(alloc, name.as_str()));
            }
            Ok(())
        }
        FileTree::Path(_) => Ok(()),
    }
}

fn check_count(
    alloc: Global,
    catalog: &Catalog,
    target: Target,
    destination: &Destination,
) -> Result<(), JobFault>
    requires { HasTarget catalog.now target }
    ensures { spec.Judges (spec.wrong_count catalog.now target destination.now) result }
{
    if destination.columns.len() != value_count(catalog, target) {
        return Err(wrong_count(alloc, destination.name.as_str()));
    }
    Ok(())
}

fn check_ids(
    alloc: Global,
    catalog: &Catalog,
    target: Target,
    destination: &Destination,
) -> Result<(), JobFault>
    requires { HasTarget catalog.now target }
    ensures { spec.Judges (spec.id_missing catalog.now target destination.now) result }
{
    if has_default(destination.columns.as_slice(), name_count(catalog, target)) {
        return Err(id_missing(alloc, destination.name.as_str()));
    }
    Ok(())
}

/// Returns the type of a destination, or why the destination is refused.
#[tactic(auto, using(crate::proofs::JudgeLemmas::judging))]
fn check_destination(
    alloc: Global,
    catalog: &Catalog,
    graph: &GraphType,
    destination: &Destination,
) -> Result<Target, JobFault>
    ensures judged { spec.Judges (spec.destination_refusal catalog.now graph.now destination.now) result }
    ensures found { IfOk result (λ t. view.target_of catalog.now graph.now destination.now.table destination.now.name ≡ Some t) }
{
    let name = destination.name.as_str();
    let target = match target_of(catalog, graph, destination.table, name) {
        Some(target) => target,
        None => return Err(no_such_type(alloc, name)),
    };
    match check_count(alloc, catalog, target, destination) {
        Ok(()) => {}
        Err(fault) => return Err(fault),
    }
    match check_ids(alloc, catalog, target, destination) {
        Ok(()) => Ok(target),
        Err(fault) => Err(fault),
    }
}

fn into_of(
    alloc: Global,
    catalog: &Catalog,
    graph: &GraphType,
    destination: &Destination,
) -> Result<LoadInto, JobFault>
    ensures judged { spec.Judges (spec.destination_refusal catalog.now graph.now destination.now) result }
    ensures made { IfOk result (λ into. into ≡ view.into_of catalog.now graph.now destination.now) }
{
    let target = match check_destination(alloc, catalog, graph, destination) {
        Ok(target) => target,
        Err(fault) => return Err(fault),
    };
    match column_copies(alloc, destination.columns.as_slice()) {
        Ok(columns) => Ok(LoadInto { target, columns }),
        Err(OutOfMemory) => Err(JobFault::OutOfMemory),
    }
}

fn destinations_of(
    alloc: Global,
    catalog: &Catalog,
    graph: &GraphType,
    destinations: &[Destination],
) -> Result<List<LoadInto>, JobFault>
    ensures judged { spec.Judges (spec.first_due (spec.destination_refusal catalog.now graph.now) destinations.now) result }
    ensures made { IfOk result (λ intos. intos ≡ map (view.into_of catalog.now graph.now) destinations.now) }
{
    let mut intos = List::new(alloc);
    for destination in destinations {
        let into = match into_of(alloc, catalog, graph, destination) {
            Ok(into) => into,
            Err(fault) => return Err(fault),
        };
        match intos.push(into) {
            Ok(()) => {}
            Err(OutOfMemory) => return Err(JobFault::OutOfMemory),
        }
    }
    Ok(intos)
}

/// Checks a LOAD: returns the checked line, or why it is refused.
#[tactic(auto, using(crate::proofs::JudgeLemmas::judging))]
fn line_of(
    alloc: Global,
    catalog: &Catalog,
    graph: &GraphType,
    files: &JobFiles,
    load: &LoadTree,
) -> Result<LoadLine, JobFault>
    ensures judged { spec.Judges (spec.load_refusal catalog.now graph.now (defining files.now) load.now) result }
    ensures made { IfOk result (λ line. line ≡ view.line_of catalog.now graph.now load.now) }
{
    match check_options(load) {
        Ok(()) => {}
        Err(fault) => return Err(fault),
    }
    match check_file(alloc, files, &load.file) {
        Ok(()) => {}
        Err(fault) => return Err(fault),
    }
    let destinations = match destinations_of(alloc, catalog, graph, load.destinations.as_slice()) {
        Ok(destinations) => destinations,
        Err(fault) => return Err(fault),
    };
    match file_of(alloc, &load.file) {
        Ok(file) => Ok(LoadLine {
            file,
            separator: separator_of(load.options.as_slice()),
            header: header_of(load.options.as_slice()),
            quote: quote_of(load.options.as_slice()),
            destinations,
        }),
        Err(OutOfMemory) => Err(JobFault::OutOfMemory),
    }
}

fn add_line(
    alloc: Global,
    catalog: &Catalog,
    graph: &GraphType,
    files: &JobFiles,
    line: &JobLine,
    checked: &mut List<LoadLine>,
) -> Result<(), JobFault>
    ensures judged { spec.Judges (spec.line_refusal catalog.now graph.now (defining files.now) line.now) result }
    ensures made { OnOk result (checked.new ≡ checked.old ++ view.lines_of catalog.now graph.now (line.now ∷ [])) }
{
    match line {
        JobLine::Define(_, _) => Ok(()),
        JobLine::Load(load) => {
            let line = match line_of(alloc, catalog, graph, files, load) {
                Ok(line) => line,
                Err(fault) => return Err(fault),
            };
            match checked.push(line) {
                Ok(()) => Ok(()),
                Err(OutOfMemory) => Err(JobFault::OutOfMemory),
            }
        }
    }
}

fn lines_of(
    alloc: Global,
    catalog: &Catalog,
    graph: &GraphType,
    files: &JobFiles,
    job: &[JobLine],
) -> Result<List<LoadLine>, JobFault>
    ensures judged { spec.Judges (spec.first_due (spec.line_refusal catalog.now graph.now (defining files.now)) job.now) result }
    ensures made { IfOk result (λ checked. checked ≡ view.lines_of catalog.now graph.now job.now) }
{
    let mut checked = List::new(alloc);
    for line in job {
        match add_line(alloc, catalog, graph, files, line, &mut checked) {
            Ok(()) => {}
            Err(fault) => return Err(fault),
        }
    }
    Ok(checked)
}

/// Checks the job of a tree for a graph of the catalog: names of types become numbers, option texts become values.
/// Otherwise returns the first rule that fails, line by line: options, then the file, then for each destination its
/// type, the number of its columns, its columns, and `_` for an id or a discriminator.
pub fn check_job(
    alloc: Global,
    catalog: &Catalog,
    graph: u32,
    job: &JobTree,
) -> Result<Job, JobFault>
    requires { graph < length catalog.now.graphs }
    ensures judged { spec.Judges (spec.job_refusal catalog.now graph job.now) result }
    ensures made { IfOk result (λ checked. checked ≡ view.job_of catalog.now graph job.now) }
    ensures fits { IfOk result (λ checked. All (LineFits catalog.now) checked.lines) }
{
    let files = match JobFiles::of(alloc, job.lines.as_slice()) {
        Ok(files) => files,
        Err(OutOfMemory) => return Err(JobFault::OutOfMemory),
    };
    match lines_of(
        alloc,
        catalog,
        graph_at(catalog, graph),
        &files,
        job.lines.as_slice(),
    ) {
        Ok(lines) => Ok(Job { files, lines }),
        Err(fault) => Err(fault),
    }
}
