// How deeply a script nests.
ghost use Rattle.std.specs.Prelude.{◌≡◌, ◌≤◌, All, IfSome, IfNone, ℕ, Some, None, length};
ghost use Rattle.gq_token.specs.Cut.{IsSpelledIn};
ghost use Rattle.gq_token.specs.Nesting.{depth_with, opens, shuts, IsTooDeepAt, IsShallow};

use crate::token::Token;

/// The place of the first token that raises the depth to 65, if there is one.
///
/// A level begins at `(`, `[`, `{`, IF, WHILE and FOREACH, and ends at `)`, `]`, `}` and END. ELSE IF begins none.
pub fn too_deep(bytes: &[u8], tokens: &[Token]) -> Option<usize>
    requires { All (IsSpelledIn bytes.now) tokens.now }
    ensures some { IfSome result (λ place. IsTooDeepAt bytes.now tokens.now place) }
    ensures none { IfNone result (IsShallow bytes.now tokens.now) }

    // There is at most one such place, it is within the script, and then the script isn't shallow.
    ensures only { (place : ℕ) → IsTooDeepAt bytes.now tokens.now place → result ≡ Some place }
    ensures within { IfSome result (λ place. place ≤ length bytes.now) }
    ensures not_shallow { IsShallow bytes.now tokens.now → result ≡ None }
{
    let mut depth = 0u64;
    let mut behind_else = false;
    for token in tokens {
        depth = depth_with(bytes, behind_else, depth, token);
        if depth > 64 {
            return Some(token.from);
        }
        behind_else = token.is_keyword(bytes, "ELSE");
    }
    None
}

// The depth after a token, given the depth before it.
fn depth_with(bytes: &[u8], behind_else: bool, depth: u64, token: &Token) -> u64
    requires spelled { IsSpelledIn bytes.now token.now }
    requires shallow { depth ≤ 64 }
    ensures { result ≡ depth_with bytes.now behind_else depth token.now }
{
    if opens(bytes, behind_else, token) {
        depth + 1
    } else if shuts(bytes, token) {
        depth.saturating_sub(1)
    } else {
        depth
    }
}

// A token that begins a level.
fn opens(bytes: &[u8], behind_else: bool, token: &Token) -> bool
    requires { IsSpelledIn bytes.now token.now }
    ensures { result ≡ opens bytes.now behind_else token.now }
{
    let brackets = token.is_mark(bytes, "(")
        || token.is_mark(bytes, "[")
        || token.is_mark(bytes, "{");
    let is_if = token.is_keyword(bytes, "IF") && !behind_else;
    brackets || is_if || token.is_keyword(bytes, "WHILE") || token.is_keyword(bytes, "FOREACH")
}

// A token that ends a level.
fn shuts(bytes: &[u8], token: &Token) -> bool
    requires { IsSpelledIn bytes.now token.now }
    ensures { result ≡ shuts bytes.now token.now }
{
    let brackets = token.is_mark(bytes, ")")
        || token.is_mark(bytes, "]")
        || token.is_mark(bytes, "}");
    brackets || token.is_keyword(bytes, "END")
}
