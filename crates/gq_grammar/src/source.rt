// Tokens with the bytes from which they were cut.
ghost use Rattle.std.specs.Prelude.{◌≡◌, ◌≤◌, length, All, IfOk};
ghost use Rattle.std.specs.Option.{option_map};
ghost use Rattle.gq_token.specs.Cut.{IsSpelledIn};
ghost use Rattle.gq_grammar.specs.Lexemes as lexemes;
ghost use Rattle.gq_grammar.specs.Lexemes.{lexemes_of, Sign, Keyword, Name, Number, Text, Attached};
ghost use Rattle.gq_grammar.specs.Parsers.{Found, token, one, stands};
ghost use Rattle.gq_grammar.specs.Reading.{between};
ghost use Rattle.gq_grammar.specs.Series.{joined};

use crate::reserved::is_reserved;
use gq_base::OutOfMemory;
use gq_token::{Token, TokenKind};
use gq_value::Txt;
use std::alloc::Global;
use std::marker::Model;

/// The tokens of a script with its bytes, as readers see them. Contracts see a list of lexemes. It borrows both.
#[derive(Drop)]
pub struct Source<'a> {
    bytes: &'a [u8],
    tokens: &'a [Token],
}

impl<'a> Model for Source<'a> {
    ghost use Rattle.std.specs.Prelude.{All};
    ghost use Rattle.gq_token.specs.Cut.{IsSpelledIn};
    ghost use Rattle.gq_grammar.specs.Lexemes.{Lexemes, lexemes_of};

    ghost Value = { Lexemes };

    ghost view = { λ s. lexemes_of s.bytes.now s.tokens.now };

    ghost invariant = { λ s. All (IsSpelledIn s.bytes.now) s.tokens.now };
}

impl<'a> Source<'a> {
    /// Borrows the tokens, which were cut from the script `bytes`.
    pub fn new(bytes: &'a [u8], tokens: &'a [Token]) -> Source<'a>
        requires { All (IsSpelledIn bytes.now) tokens.now }
        ensures { result ≡ lexemes_of bytes.now tokens.now }
    {
        Source { bytes, tokens }
    }

    /// Copies the bytes of the tokens from `from` up to, but not including, `to`, joined.
    #[tactic(auto, using(crate::proofs::SeriesLemmas::joins))]
    pub fn joined(&self, alloc: Global, from: usize, to: usize) -> Result<Vec<u8>, OutOfMemory>
        requires order { from ≤ to }
        requires within { to ≤ length self.now }
        ensures { IfOk result (λ text. text.items ≡ joined (between self.now from to)) }
    {
        let mut text = Vec::new(alloc);
        for token in &self.tokens[from..to] {
            text.extend_from_slice(token.text(self.bytes))?;
        }
        Ok(text)
    }

    /// The number of tokens.
    pub fn len(&self) -> usize
        ensures { result ≡ length self.now }
    {
        self.tokens.len()
    }

    /// The place after this symbol, if it is at `at`.
    pub fn sign(&self, at: usize, sign: &str) -> Option<usize>
        requires { at ≤ length self.now }
        ensures { Found (one (Sign sign.now)) self.now at (option_map (λ next. (tt, next)) result) }
    {
        if at == self.tokens.len() {
            return None;
        }
        if self.tokens[at].is_mark(self.bytes, sign) {
            Some(at + 1)
        } else {
            None
        }
    }

    /// This value and the place after the symbol, if the symbol is at `at`.
    #[tactic(auto, unfolding(crate::specs::Parsers::stands))]
    pub fn stands<T: Drop>(&self, at: usize, sign: &str, value: T) -> Option<(T, usize)>
        requires { at ≤ length self.now }
        ensures { Found (stands value (Sign sign.now)) self.now at result }
    {
        match self.sign(at, sign) {
            None => None,
            Some(next) => Some((value, next)),
        }
    }

    /// The place after this word, if it is at `at`, in any letter case.
    pub fn keyword(&self, at: usize, word: &str) -> Option<usize>
        requires { at ≤ length self.now }
        ensures { Found (one (Keyword word.now)) self.now at (option_map (λ next. (tt, next)) result) }
    {
        if at == self.tokens.len() {
            return None;
        }
        if self.tokens[at].is_keyword(self.bytes, word) {
            Some(at + 1)
        } else {
            None
        }
    }

    /// The name at `at`, and the place after it.
    pub fn name(&self, at: usize) -> Option<(&'a str, usize)>
        requires { at ≤ length self.now }
        ensures { Found (token Name lexemes.spelling) self.now at (option_map (λ read. (read.0.now, read.1)) result) }
    {
        if at == self.tokens.len() {
            return None;
        }
        match self.tokens[at].word(self.bytes) {
            None => None,
            Some(word) => {
                if is_reserved(word) {
                    None
                } else {
                    Some((word, at + 1))
                }
            }
        }
    }

    /// The spelling of the `@@` and word at `at`, and the place after them.
    pub fn global(&self, at: usize) -> Option<(&'a str, usize)>
        requires { at ≤ length self.now }
        ensures { Found (token lexemes.Global lexemes.spelling) self.now at (option_map (λ read. (read.0.now, read.1)) result) }
    {
        if at == self.tokens.len() {
            return None;
        }
        match self.tokens[at].global(self.bytes) {
            None => None,
            Some(name) => Some((name, at + 1)),
        }
    }

    /// The spelling of the `@` and word at `at`, and the place after them.
    pub fn attached(&self, at: usize) -> Option<(&'a str, usize)>
        requires { at ≤ length self.now }
        ensures { Found (token Attached lexemes.spelling) self.now at (option_map (λ read. (read.0.now, read.1)) result) }
    {
        if at == self.tokens.len() {
            return None;
        }
        match self.tokens[at].attached(self.bytes) {
            None => None,
            Some(name) => Some((name, at + 1)),
        }
    }

    /// The number at `at`, and the place after it.
    pub fn number(&self, at: usize) -> Option<(u64, usize)>
        requires { at ≤ length self.now }
        ensures { Found (token Number lexemes.number) self.now at result }
    {
        if at == self.tokens.len() {
            return None;
        }
        match self.tokens[at].shape {
            TokenKind::Number(number) => Some((number, at + 1)),
            _ => None,
        }
    }

    /// The value of the text at `at`, and the place after it.
    pub fn text(&self, at: usize) -> Option<(&'a Txt, usize)>
        requires { at ≤ length self.now }
        ensures { Found (token Text lexemes.said) self.now at (option_map (λ read. (read.0.now, read.1)) result) }
    {
        if at == self.tokens.len() {
            return None;
        }
        match &self.tokens[at].shape {
            TokenKind::Text(said) => Some((said, at + 1)),
            _ => None,
        }
    }
}
