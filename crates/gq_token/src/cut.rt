// The cut of a script.
ghost use Rattle.std.specs.Prelude.{◌≡◌, ◌≢◌, List, All, IfOk, IfErr, ◌≤◌, length};
ghost use Rattle.gq_token.specs.declared.token.Token.{Token};
ghost use Rattle.gq_token.specs.declared.fault.LexFault.{LexFault};
ghost use Rattle.gq_token.specs.declared.fault.LexFault.TheVariants.{OutOfMemory};
ghost use Rattle.gq_token.specs.Cut.{HasTokens, IsSpelledIn};
ghost use Rattle.gq_token.specs.Faults.{HasFault, place_of};

use crate::fault::LexFault;
use crate::item::next_item;
use crate::token::Token;
use std::alloc::Global;

/// Cuts a script into its tokens, in order.
///
/// A script has either one list of tokens or one fault: that it isn't UTF-8, or else the leftmost one. Time is linear
/// in the bytes.
pub fn tokens(alloc: Global, bytes: &[u8]) -> Result<Vec<Token>, LexFault>
    ensures cut { IfOk result (λ found. HasTokens bytes.now found.items) }
    ensures only { IfOk result (λ found. (tokens : List Token) → HasTokens bytes.now tokens → tokens ≡ found.items) }
    ensures spelled { IfOk result (λ found. All (IsSpelledIn bytes.now) found.items) }
    ensures fault { IfErr result (λ fault. fault ≢ OutOfMemory → HasFault bytes.now fault) }

    // A script with tokens has no fault, and one with a fault has no other fault and no tokens.
    ensures no_fault { IfOk result (λ found. (fault : LexFault) → HasFault bytes.now fault → ⊥) }
    ensures only_fault { IfErr result (λ fault. fault ≢ OutOfMemory → (other : LexFault) → HasFault bytes.now other → other ≡ fault) }
    ensures no_cut { IfErr result (λ fault. fault ≢ OutOfMemory → (tokens : List Token) → HasTokens bytes.now tokens → ⊥) }
    ensures within { IfErr result (λ fault. place_of fault ≤ length bytes.now) }
{
    if let Err(error) = str::from_utf8(bytes) {
        return Err(LexFault::NotUtf8 {
            at: error.valid_up_to(),
        });
    }
    let mut found = Vec::new(alloc);
    let mut at = 0;
    while at < bytes.len() {
        let item = match next_item(alloc, &bytes[at..], at) {
            Ok(item) => item,
            Err(fault) => return Err(fault),
        };
        let to = at + item.size;
        match item.shape {
            Some(shape) => found.push(Token {
                shape,
                from: at,
                to,
            })?,
            None => {}
        }
        at = to;
    }
    Ok(found)
}
