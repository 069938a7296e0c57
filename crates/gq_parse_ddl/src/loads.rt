// The lines of a loading job.
ghost use Rattle.std.specs.Prelude.{◌≤◌, length, IfOk, Some};
ghost use Rattle.gq_grammar.specs.Jobs.{load_of, define_of};
ghost use Rattle.gq_grammar.specs.Lexemes as lexemes;
ghost use Rattle.gq_grammar.specs.Parsers.{Found, both, made, maybe};
ghost use Rattle.gq_grammar.specs.Series.{chain};
ghost use Rattle.gq_parse_common.specs.Literals.{setting_parser};
ghost use Rattle.gq_parse_ddl.specs.Jobs as spec;

use crate::destinations::destinations;
use gq_base::{List, OutOfMemory};
use gq_expr_read::Read;
use gq_grammar::Source;
use gq_parse_common::{list, listed, name, need, of_words, setting, text};
use gq_tree::{FileTree, JobLine, LoadOption, LoadTree};
use gq_value::Txt;
use std::alloc::Global;

// SEPARATOR | HEADER | QUOTE | EOL
#[tactic(auto, unfolding(crate::specs::Jobs::load_option_name_parser, gq_grammar::specs::Parsers::one, gq_grammar::specs::Parsers::stands, gq_grammar::specs::Parsers::token))]
fn option_name(source: &Source<'_>, at: usize) -> Option<(LoadOption, usize)>
    requires { at ≤ length source.now }
    ensures { Found spec.load_option_name_parser source.now at result }
{
    of_words!(source, at;
        "SEPARATOR" => LoadOption::Separator,
        "HEADER" => LoadOption::Header,
        "QUOTE" => LoadOption::Quote,
        "EOL" => LoadOption::Eol,
    )
}

// Opt = ( SEPARATOR | HEADER | QUOTE | EOL ) "=" Text
#[tactic(auto, unfolding(crate::specs::Jobs::load_option_parser))]
fn option(alloc: Global, source: &Source<'_>, at: usize) -> Read<(LoadOption, Txt)>
    requires { at ≤ length source.now }
    ensures { IfOk result (Found spec.load_option_parser source.now at) }
{
    let (option, at) = need!(option_name(source, at));
    let (text, at) = need!(setting(alloc, source, at)?);
    Ok(Some(((option, text), at)))
}

// Opt { "," Opt }
fn option_list(alloc: Global, source: &Source<'_>, at: usize) -> Read<List<(LoadOption, Txt)>>
    requires { at ≤ length source.now }
    ensures { IfOk result (Found (chain (lexemes.sign ",") spec.load_option_parser) source.now at) }
{
    list(alloc, source, at, option)
}

// [ USING Opt { "," Opt } ]
#[tactic(auto, unfolding(crate::specs::Jobs::load_options_parser, gq_grammar::specs::Parsers::after))]
fn options(
    alloc: Global,
    source: &Source<'_>,
    at: usize,
) -> Result<(Option<List<(LoadOption, Txt)>>, usize), OutOfMemory>
    requires { at ≤ length source.now }
    ensures { IfOk result (λ read. Found (maybe spec.load_options_parser) source.now at (Some read)) }
{
    let next = need!(source.keyword(at, "USING"), else (None, at));
    let (options, end) = need!(option_list(alloc, source, next)?, else (None, at));
    Ok((Some(options), end))
}

// Name | Text
#[tactic(auto, unfolding(crate::specs::Jobs::file_parser))]
fn file(alloc: Global, source: &Source<'_>, at: usize) -> Read<FileTree>
    requires { at ≤ length source.now }
    ensures { IfOk result (Found spec.file_parser source.now at) }
{
    match name(alloc, source, at)? {
        Some((name, next)) => Ok(Some((FileTree::Defined(name), next))),
        None => {
            let (path, next) = need!(text(alloc, source, at)?);
            Ok(Some((FileTree::Path(path), next)))
        }
    }
}

// LOAD ( Name | Text ) Dest { "," Dest } [ USING Opt { "," Opt } ]
#[tactic(auto, unfolding(crate::specs::Jobs::load_from_parser, gq_grammar::specs::Parsers::after))]
fn load(alloc: Global, source: &Source<'_>, at: usize) -> Read<JobLine>
    requires { at ≤ length source.now }
    ensures { IfOk result (Found (made load_of (both spec.load_from_parser (maybe spec.load_options_parser))) source.now at) }
{
    let at = need!(source.keyword(at, "LOAD"));
    let (file, at) = need!(file(alloc, source, at)?);
    let (destinations, at) = need!(destinations(alloc, source, at)?);
    let (options, at) = options(alloc, source, at)?;
    let options = listed(alloc, options);
    Ok(Some((
        JobLine::Load(LoadTree {
            file,
            destinations,
            options,
        }),
        at,
    )))
}

// [ "=" Text ]
fn path(alloc: Global, source: &Source<'_>, at: usize) -> Result<(Option<Txt>, usize), OutOfMemory>
    requires { at ≤ length source.now }
    ensures { IfOk result (λ read. Found (maybe setting_parser) source.now at (Some read)) }
{
    let (path, end) = need!(setting(alloc, source, at)?, else (None, at));
    Ok((Some(path), end))
}

// DEFINE FILENAME Name [ "=" Text ]
#[tactic(auto, unfolding(crate::specs::Jobs::file_name_parser, gq_grammar::specs::Parsers::after, gq_grammar::specs::Parsers::one, gq_grammar::specs::Parsers::token))]
fn define(alloc: Global, source: &Source<'_>, at: usize) -> Read<JobLine>
    requires { at ≤ length source.now }
    ensures { IfOk result (Found (made define_of (both spec.file_name_parser (maybe setting_parser))) source.now at) }
{
    let at = need!(source.keyword(at, "DEFINE"));
    let at = need!(source.keyword(at, "FILENAME"));
    let (name, at) = need!(name(alloc, source, at)?);
    let (path, at) = path(alloc, source, at)?;
    Ok(Some((JobLine::Define(name, path), at)))
}

// Line = DEFINE FILENAME Name [ "=" Text ] | LOAD ( Name | Text ) Dest { "," Dest } [ USING Opt { "," Opt } ]
#[tactic(auto, unfolding(crate::specs::Jobs::line_parser))]
pub fn line(alloc: Global, source: &Source<'_>, at: usize) -> Read<JobLine>
    requires { at ≤ length source.now }
    ensures { IfOk result (Found spec.line_parser source.now at) }
{
    match define(alloc, source, at)? {
        Some(read) => Ok(Some(read)),
        None => load(alloc, source, at),
    }
}
