// The public functions of the reader.
ghost use Rattle.std.specs.Prelude.{◌≡◌, ◌≤◌, length, All, IfOk, Err};
ghost use Rattle.gq_token.specs.Cut.{IsSpelledIn};
ghost use Rattle.gq_grammar.specs.Lexemes.{lexemes_of};
ghost use Rattle.gq_grammar.specs.Parsers.{Found};
ghost use Rattle.gq_grammar.specs.Reading.{IsLongest, HasNone};
ghost use Rattle.gq_grammar.specs.Expressions.{Derives};
ghost use Rattle.gq_expr_read.specs.Descent as spec;

use crate::fault::ReadFault;
use crate::grammar::Grammar;
use gq_base::OutOfMemory;
use gq_grammar::Source;
use gq_token::Token;
use gq_tree::Node;
use std::alloc::Global;

/// What is read, with the place after it, or None if there is nothing of its kind.
pub type Read<T> = Result<Option<(T, usize)>, OutOfMemory>;

/// Returns the longest expression from `at` on, and the place after it, if it nests at most `levels` levels.
///
/// For readers of statements, with the source that they have. Each level takes a token and uses some stack frames.
pub fn expr(alloc: Global, source: &Source<'_>, levels: usize, at: usize) -> Read<Node>
    requires { at ≤ length source.now }
    ensures { IfOk result (Found (spec.expr levels) source.now at) }
{
    if levels == 0 {
        return Ok(None);
    }
    Grammar {
        alloc,
        source,
        levels: levels - 1,
        expr,
    }
    .disjunction(at)
}

/// Reads the longest prefix from `at` on that is an expression, and returns its tree and the place after it.
///
/// The tokens are those of the script `bytes`. Call `too_deep` before: each level of parentheses uses some stack
/// frames.
/// Time is linear in the tokens that are read.
pub fn read_expr(
    alloc: Global,
    bytes: &[u8],
    tokens: &[Token],
    at: usize,
) -> Result<(Node, usize), ReadFault>
    requires tokens { All (IsSpelledIn bytes.now) tokens.now }
    requires at { at ≤ length tokens.now }
    ensures found { IfOk result (λ read. IsLongest Derives (lexemes_of bytes.now tokens.now) at read.0 read.1) }
    ensures none { result ≡ Err ReadFault.NoDerivation → HasNone Derives (lexemes_of bytes.now tokens.now) at }
{
    let source = Source::new(bytes, tokens);
    match expr(alloc, &source, tokens.len() - at, at)? {
        None => Err(ReadFault::NoDerivation),
        Some(read) => Ok(read),
    }
}
