//! The grammar of GSQL, and the combinators with which grammars are specified and parsers are proved.
//!
//! A language is a relation between lists of lexemes and trees, built from a few combinators that read like
//! EBNF. A parser asks a `Source` for one token at a time, and its contract states that it finds the longest
//! prefix that derives.
//!
//! Read `specs/Lexemes.antt` and `specs/Languages.antt` first, then the grammar: `specs/Expressions.antt`,
//! `specs/Selects.antt`, `specs/Bodies.antt`, `specs/Queries.antt`, `specs/Scripts.antt`.
//! `specs/Parsers.antt` mirrors the combinators for code. Tokens come from `src/source.rt`.
#![tactic(auto)]

mod reserved;
mod source;

pub use reserved::is_reserved;
pub use source::Source;
