// Tokens.
ghost use Rattle.std.specs.Prelude.{◌≡◌, ◌≢◌, IfSome, IfNone};
ghost use Rattle.std.specs.Str.{IsAscii};
ghost use Rattle.gq_token.specs.declared.token.TokenKind.TheVariants.{Word, Global, Attached};
ghost use Rattle.gq_token.specs.Cut.{IsSpelledIn, text_of};
ghost use Rattle.gq_token.specs.Kinds.{is_keyword, is_mark};

use gq_value::Txt;

/// The kind of a token, with its value if the bytes alone don't give it.
#[derive(Drop)]
pub enum TokenKind {
    /// An ASCII letter or `_`, and the ASCII letters, digits and `_` after it. Keywords and names are words.
    Word,

    /// `@@` and a word directly after it.
    Global,

    /// `@` and a word directly after it.
    Attached,

    /// The value of ASCII digits.
    Number(u64),

    /// The value of a quoted text, with each escape replaced by the byte that it means.
    Text(Txt),

    /// One of `->` `==` `!=` `<>` `<=` `>=` `+=` `=` `<` `>` `+` `-` `*` `/` `%` `(` `)` `{` `}` `[` `]` `,` `;` `:` `.` `|`
    /// `'` `$`.
    Symbol,
}

/// A token, and the places of its bytes in the script: from `from` up to, but not including, `to`.
#[derive(Drop)]
pub struct Token {
    pub shape: TokenKind,
    pub from: usize,
    pub to: usize,
}

impl Token {
    /// The bytes of the token in the script `bytes` from which it was cut.
    pub fn text<'a>(&self, bytes: &'a [u8]) -> &'a [u8]
        requires { IsSpelledIn bytes.now self.now }
        ensures { result.now ≡ text_of bytes.now self.now }
    {
        &bytes[self.from..self.to]
    }

    /// The spelling of a word, or None if the token isn't a word.
    pub fn word<'a>(&self, bytes: &'a [u8]) -> Option<&'a str>
        requires { IsSpelledIn bytes.now self.now }
        ensures word { IfSome result (λ text. (self.now.shape ≡ Word) × (text.now ≡ text_of bytes.now self.now)) }
        ensures none { IfNone result (self.now.shape ≢ Word) }
    {
        match self.shape {
            TokenKind::Word => Some(ascii(self.text(bytes))),
            _ => None,
        }
    }

    /// The spelling of `@@` and a word, or None if the token is something else.
    pub fn global<'a>(&self, bytes: &'a [u8]) -> Option<&'a str>
        requires { IsSpelledIn bytes.now self.now }
        ensures global { IfSome result (λ text. (self.now.shape ≡ Global) × (text.now ≡ text_of bytes.now self.now)) }
        ensures none { IfNone result (self.now.shape ≢ Global) }
    {
        match self.shape {
            TokenKind::Global => Some(ascii(self.text(bytes))),
            _ => None,
        }
    }

    /// The spelling of `@` and a word, or None if the token is something else.
    pub fn attached<'a>(&self, bytes: &'a [u8]) -> Option<&'a str>
        requires { IsSpelledIn bytes.now self.now }
        ensures attached { IfSome result (λ text. (self.now.shape ≡ Attached) × (text.now ≡ text_of bytes.now self.now)) }
        ensures none { IfNone result (self.now.shape ≢ Attached) }
    {
        match self.shape {
            TokenKind::Attached => Some(ascii(self.text(bytes))),
            _ => None,
        }
    }

    /// Whether the token is this word, in any letter case.
    pub fn is_keyword(&self, bytes: &[u8], word: &str) -> bool
        requires { IsSpelledIn bytes.now self.now }
        ensures { result ≡ is_keyword bytes.now word.now self.now }
    {
        match self.word(bytes) {
            Some(text) => text.eq_ignore_ascii_case(word),
            None => false,
        }
    }

    /// Whether the token is this symbol.
    pub fn is_mark(&self, bytes: &[u8], mark: &str) -> bool
        requires { IsSpelledIn bytes.now self.now }
        ensures { result ≡ is_mark bytes.now mark.now self.now }
    {
        match self.shape {
            TokenKind::Symbol => self.text(bytes) == mark.as_bytes(),
            _ => false,
        }
    }
}

// Views ASCII bytes as a text, without a copy.
fn ascii(bytes: &[u8]) -> &str
    requires { IsAscii bytes.now }
    ensures { result.now ≡ bytes.now }
{
    match str::from_utf8(bytes) {
        Ok(text) => text,
        Err(_) => unreachable!(),
    }
}
