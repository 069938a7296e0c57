// Words after `@` and `@@`.
ghost use Rattle.std.specs.Prelude.{◌≡◌, ◌<◌, length, slice_index, IfOk, IfErr};
ghost use Rattle.gq_token.specs.Items.{IsItem, item_with, FaultHere};

use crate::class::{ByteRun, begins_word, byte_at, run_size};
use crate::fault::LexFault;
use crate::item::LexItem;
use crate::token::TokenKind;

// Cuts the `@` or `@@` with which the bytes begin and the word directly after it. The `@` is at the place `at` of the
// script.
pub fn sign_word(rest: &[u8], at: usize) -> Result<LexItem, LexFault>
    requires some { 0 < length rest.now }
    requires sign { slice_index rest.now 0 ≡ 64 }
    ensures item { IfOk result (λ item. IsItem rest.now item.size (item_with item.shape)) }
    ensures fault { IfErr result (λ fault. FaultHere rest.now at fault) }
{
    if byte_at(rest, 1) == b'@' {
        if !begins_word(byte_at(rest, 2)) {
            return Err(LexFault::BadToken { at });
        }
        let word = run_size(&rest[2..], ByteRun::Word);
        return Ok(LexItem {
            size: 2 + word,
            shape: Some(TokenKind::Global),
        });
    }
    if !begins_word(byte_at(rest, 1)) {
        return Err(LexFault::BadToken { at });
    }
    let word = run_size(&rest[1..], ByteRun::Word);
    Ok(LexItem {
        size: 1 + word,
        shape: Some(TokenKind::Attached),
    })
}
