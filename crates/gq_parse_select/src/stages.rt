// What was read, paired with what was read after it, of any types. Trees are large, and are passed through here
// unchanged: a function that owns one has to drop it at each of its exits.
ghost use Rattle.std.specs.Prelude.{ℕ, List, IfOk, Some};
ghost use Rattle.gq_grammar.specs.Lexemes.{Lexemes};
ghost use Rattle.gq_grammar.specs.Parsers.{Parser, Found, both, made};
ghost use Rattle.gq_grammar.specs.Series.{one_and_all};

use gq_base::{List, OutOfMemory};
use gq_expr_read::Read;

/// The first paired with the second, if the second was read.
pub fn paired<A: Drop, B: Drop>(first: A, second: Read<B>) -> Read<(A, B)>
    ensures { (p : Parser A) (q : Parser B) (all : Lexemes) (at next : ℕ) → Found p all at (Some (first, next)) → IfOk second (Found q all next) → IfOk result (Found (both p q) all at) }
{
    match second? {
        None => Ok(None),
        Some((second, at)) => Ok(Some(((first, second), at))),
    }
}

/// The first paired with the second, which is always read.
pub fn beside<A: Drop, B: Drop>(first: A, second: Result<(B, usize), OutOfMemory>) -> Read<(A, B)>
    ensures { (p : Parser A) (q : Parser B) (all : Lexemes) (at next : ℕ) → Found p all at (Some (first, next)) → IfOk second (λ read. Found q all next (Some read)) → IfOk result (Found (both p q) all at) }
{
    let (second, at) = second?;
    Ok(Some(((first, second), at)))
}

/// The first, followed by the others.
pub fn chained<T: Drop>(first: T, others: Result<(Vec<T>, usize), OutOfMemory>) -> Read<List<T>>
    ensures { (p : Parser T) (q : Parser (List T)) (all : Lexemes) (at next : ℕ) → Found p all at (Some (first, next)) → IfOk others (λ read. Found q all next (Some (read.0.items, read.1))) → IfOk result (Found (made one_and_all (both p q)) all at) }
{
    let (mut all, at) = others?;
    all.insert(0, first)?;
    Ok(Some((List::from_vec(all), at)))
}
