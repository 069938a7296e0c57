// Refusals of statements.
ghost use Rattle.std.specs.Prelude.{◌≡◌, ◌++◌, IfOk, IfSome, IfNone, codes, string_bytes};
ghost use Rattle.gq_diagnostics.specs.Messages.{message_of, placed_message, refusal_text};

use gq_base::OutOfMemory;
use gq_json::error_line;
use gq_value::Txt;
use std::alloc::Global;
use thiserror::Error;

/// Why a statement is refused. Each has one message.
#[derive(Debug, Drop, Error)]
pub enum Refusal {
    /// A vertex or edge type, a job or a query of the name exists.
    #[error("name taken")]
    NameTaken(Txt),

    /// The name isn't that of a type, or of a type of the required kind.
    #[error("no such type")]
    NoSuchType(Txt),
    #[error("attribute twice")]
    AttributeTwice(Txt),

    /// The attribute's default isn't a value of its type.
    #[error("bad default")]
    BadDefault(Txt),

    /// A limit would be exceeded.
    #[error("too many")]
    TooMany,
    #[error("graph exists")]
    GraphExists(Txt),

    /// Nothing of the name exists: no graph, job, query, file of a job, or name of a query.
    #[error("unknown name")]
    UnknownName(Txt),

    /// The text of a loading option or a query mode isn't one of the allowed ones.
    #[error("bad option")]
    BadOption,

    /// The number of values isn't that of the type.
    #[error("wrong number of values")]
    WrongCount(Txt),
    #[error("not allowed here")]
    NotAllowed,

    /// Neither the job nor its run gives a path for the name.
    #[error("no path")]
    NoPath(Txt),
    #[error("missing file")]
    MissingFile(Txt),
    #[error("file too large")]
    TooLarge(Txt),

    /// The header of the file has no column of the name, or there is no header.
    #[error("no column")]
    NoColumn(Txt),
    #[error("store full")]
    StoreFull,
    #[error("type mismatch")]
    Mismatch,

    /// Not all types of the value have an attribute of the name, with one type.
    #[error("no attribute")]
    NoAttribute(Txt),

    /// The content of the accumulator would depend on the order of its inputs.
    #[error("order dependent")]
    OrderDependent(Txt),

    /// The set would get vertices of a type that it doesn't hold.
    #[error("wider set")]
    WiderSet(Txt),
    #[error("two aliases")]
    TwoAliases,
    #[error("bad accumulator")]
    BadAccumulator(Txt),
    #[error("name twice")]
    NameTwice(Txt),

    /// The query wasn't installed since it was last created.
    #[error("not installed")]
    NotInstalled(Txt),
    #[error("wrong number of arguments")]
    WrongArguments,

    /// The argument of the parameter isn't a value of its type.
    #[error("bad argument")]
    BadArgument(Txt),
    #[error("number out of range")]
    OutOfRange,
    #[error("division by zero")]
    ZeroDivisor,

    /// The sum of the accumulator doesn't fit its type.
    #[error("sum out of range")]
    SumOutOfRange(Txt),

    /// A loop's body would be entered after its bound, this many iterations, is used up.
    #[error("loop bound reached")]
    LoopBound(u64),

    /// A FROM would exceed the maximum number of bindings.
    #[error("too many paths")]
    PathBound,
}

impl Refusal {
    /// The text of the refusal.
    pub fn message(&self, alloc: Global) -> Result<Txt, OutOfMemory>
        ensures { IfOk result (λ text. text ≡ message_of self.now) }
    {
        match self {
            Refusal::NameTaken(name) => named(alloc, "name taken ", name),
            Refusal::NoSuchType(name) => named(alloc, "no such type ", name),
            Refusal::AttributeTwice(name) => named(alloc, "attribute twice ", name),
            Refusal::BadDefault(name) => named(alloc, "bad default ", name),
            Refusal::TooMany => Txt::of(alloc, "too many"),
            Refusal::GraphExists(name) => named(alloc, "graph exists ", name),
            Refusal::UnknownName(name) => named(alloc, "unknown name ", name),
            Refusal::BadOption => Txt::of(alloc, "bad option"),
            Refusal::WrongCount(name) => named(alloc, "wrong number of values ", name),
            Refusal::NotAllowed => Txt::of(alloc, "not allowed here"),
            Refusal::NoPath(name) => named(alloc, "no path for ", name),
            Refusal::MissingFile(name) => named(alloc, "missing file ", name),
            Refusal::TooLarge(name) => named(alloc, "file too large ", name),
            Refusal::NoColumn(name) => named(alloc, "no column ", name),
            Refusal::StoreFull => Txt::of(alloc, "store full"),
            Refusal::Mismatch => Txt::of(alloc, "type mismatch"),
            Refusal::NoAttribute(name) => named(alloc, "no attribute ", name),
            Refusal::OrderDependent(name) => named(alloc, "order dependent ", name),
            Refusal::WiderSet(name) => named(alloc, "wider set ", name),
            Refusal::TwoAliases => Txt::of(alloc, "two aliases"),
            Refusal::BadAccumulator(name) => named(alloc, "bad accumulator ", name),
            Refusal::NameTwice(name) => named(alloc, "name twice ", name),
            Refusal::NotInstalled(name) => named(alloc, "not installed ", name),
            Refusal::WrongArguments => Txt::of(alloc, "wrong number of arguments"),
            Refusal::BadArgument(name) => named(alloc, "bad argument ", name),
            Refusal::OutOfRange => Txt::of(alloc, "number out of range"),
            Refusal::ZeroDivisor => Txt::of(alloc, "division by zero"),
            Refusal::SumOutOfRange(name) => named(alloc, "sum out of range in ", name),
            Refusal::LoopBound(turns) => loop_bound(alloc, *turns),
            Refusal::PathBound => Txt::of(alloc, "more than 4194304 paths"),
        }
    }
}

/// The line that a refused statement prints, with the script line on which it begins and with its line feed.
pub fn refusal_line(alloc: Global, line: u64, refusal: &Refusal) -> Result<Vec<u8>, OutOfMemory>
    ensures { IfOk result (λ text. text.items ≡ refusal_text line (message_of refusal.now)) }
{
    let message = refusal.message(alloc)?;
    let placed = placed(alloc, line, message.as_str())?;
    error_line(alloc, placed.as_str())
}

/// A message with the number of its script line in front.
pub fn placed(alloc: Global, line: u64, message: &str) -> Result<Txt, OutOfMemory>
    ensures { IfOk result (λ text. text ≡ placed_message line message.now) }
{
    let text = format!(in alloc; "line {line}: {message}")?;
    Ok(Txt::from_string(text))
}

fn named(alloc: Global, what: &str, name: &Txt) -> Result<Txt, OutOfMemory>
    ensures { IfOk result (λ text. text ≡ what.now ++ name.now) }
{
    let name = name.as_str();
    let text = format!(in alloc; "{what}{name}")?;
    Ok(Txt::from_string(text))
}

fn loop_bound(alloc: Global, turns: u64) -> Result<Txt, OutOfMemory>
    ensures { IfOk result (λ text. text ≡ message_of (Refusal.LoopBound turns)) }
{
    let text = format!(in alloc; "loop bound {turns} reached")?;
    Ok(Txt::from_string(text))
}

/// Why a statement didn't complete.
#[derive(Debug, Drop, Error)]
pub enum StatementFault {
    #[error("refused")]
    Refused(Refusal),

    /// A file couldn't be read, which the files counted.
    #[error("file could not be read")]
    ReadFault,
    #[error("out of memory")]
    OutOfMemory,
}

impl From<OutOfMemory> for StatementFault {
    ghost use Rattle.gq_diagnostics.specs.declared.refusal.StatementFault.TheVariants as fault;

    ghost from_gives = { λ _ e. e ≡ fault.OutOfMemory };

    fn from(_: OutOfMemory) -> Self {
        StatementFault::OutOfMemory
    }
}
