// Whole scripts.
ghost use Rattle.std.specs.Prelude.{◌≡◌, ◌≢◌, ℕ, List, All, IfOk, IfErr, Err};
ghost use Rattle.gq_token.specs.Cut.{IsSpelledIn};
ghost use Rattle.gq_token.specs.Nesting.{IsTooDeepAt};
ghost use Rattle.gq_tree.specs.declared.statement.Placed.{Placed};
ghost use Rattle.gq_grammar.specs.Cutting.{IsScript};
ghost use Rattle.gq_stmt_read.specs.declared.fault.ScriptFault.{ScriptFault};
ghost use Rattle.gq_stmt_read.specs.declared.fault.ScriptFault.TheVariants.{TooDeep, OutOfMemory};
ghost use Rattle.gq_stmt_read.specs.Outcomes.{IsRead, HasFault, IsSyntaxFault};

use crate::fault::ScriptFault;
use crate::statements::statement;
use gq_grammar::Source;
use gq_token::{Token, too_deep};
use gq_tree::Placed;
use std::alloc::Global;

/// Reads the statements of a script, each with the byte place of its first token, or returns why it can't be read.
///
/// The tokens are those of the script `bytes`. A script that nests too deeply is refused for that alone. Each statement
/// is the longest prefix of the rest that is one; a lone `;` is skipped and isn't counted. Time is linear in the
/// tokens.
pub fn read_script(
    alloc: Global,
    bytes: &[u8],
    tokens: &[Token],
) -> Result<Vec<Placed>, ScriptFault>
    requires { All (IsSpelledIn bytes.now) tokens.now }
    ensures script { IfOk result (λ found. IsRead bytes.now tokens.now found.items) }
    ensures only { IfOk result (λ found. (statements : List Placed) → IsRead bytes.now tokens.now statements → statements ≡ found.items) }
    ensures fault { IfErr result (λ fault. fault ≢ OutOfMemory → HasFault bytes.now tokens.now fault) }

    // A script that is read has no fault, and one with a fault has no other fault and isn't read.
    ensures no_fault { IfOk result (λ found. (fault : ScriptFault) → HasFault bytes.now tokens.now fault → ⊥) }
    ensures only_fault { IfErr result (λ fault. fault ≢ OutOfMemory → (other : ScriptFault) → HasFault bytes.now tokens.now other → other ≡ fault) }
    ensures no_script { IfErr result (λ fault. fault ≢ OutOfMemory → (statements : List Placed) → IsRead bytes.now tokens.now statements → ⊥) }

    // Refusing a script that nests too deeply allocates nothing.
    ensures too_deep { (at : ℕ) → IsTooDeepAt bytes.now tokens.now at → result ≡ Err (TooDeep at) }
{
    match too_deep(bytes, tokens) {
        Some(at) => Err(ScriptFault::TooDeep { at }),
        None => statements(alloc, bytes, tokens),
    }
}

// Reads the statements, however deeply they nest.
fn statements(alloc: Global, bytes: &[u8], tokens: &[Token]) -> Result<Vec<Placed>, ScriptFault>
    requires { All (IsSpelledIn bytes.now) tokens.now }
    ensures script { IfOk result (λ found. IsScript bytes.now tokens.now found.items) }
    ensures fault { IfErr result (IsSyntaxFault bytes.now tokens.now) }
{
    let source = Source::new(bytes, tokens);
    let mut found = Vec::new(alloc);
    let mut at = 0;
    while at < tokens.len() {
        match source.sign(at, ";") {
            Some(next) => at = next,
            None => match statement(alloc, &source, at)? {
                None => {
                    return Err(ScriptFault::Syntax {
                        statement: found.len() as u64 + 1,
                        at: tokens[at].from,
                    });
                }
                Some((statement, next)) => {
                    found.push(Placed {
                        statement,
                        from: tokens[at].from,
                    })?;
                    at = next;
                }
            },
        }
    }
    Ok(found)
}
