// Symbols.
ghost use Rattle.std.specs.Prelude.{◌≡◌, ◌<◌, length, slice_index, IfOk, IfErr};
ghost use Rattle.gq_token.specs.Class.{class_of, symbol_size, is_pair, is_single};
ghost use Rattle.gq_token.specs.declared.class.Class.TheVariants.{Other};
ghost use Rattle.gq_token.specs.Items.{IsItem, item_with, FaultHere};

use crate::class::byte_at;
use crate::fault::LexFault;
use crate::item::LexItem;
use crate::token::TokenKind;

// Cuts the symbol with which the bytes begin. The first byte is at the place `at` of the script.
pub fn symbol(rest: &[u8], at: usize) -> Result<LexItem, LexFault>
    requires some { 0 < length rest.now }
    requires other { class_of (slice_index rest.now 0) (slice_index rest.now 1) ≡ Other }
    ensures item { IfOk result (λ item. IsItem rest.now item.size (item_with item.shape)) }
    ensures fault { IfErr result (λ fault. FaultHere rest.now at fault) }
{
    match symbol_size(rest[0], byte_at(rest, 1)) {
        0 => Err(LexFault::BadToken { at }),
        size => Ok(LexItem {
            size,
            shape: Some(TokenKind::Symbol),
        }),
    }
}

// The length of the longest symbol of two bytes, or 0 if there is none. A second byte of 0 means that there is none.
fn symbol_size(first: u8, second: u8) -> usize
    ensures { result ≡ symbol_size first second }
{
    if is_pair(first, second) {
        2
    } else if is_single(first) {
        1
    } else {
        0
    }
}

fn is_pair(first: u8, second: u8) -> bool
    ensures { result ≡ is_pair first second }
{
    match second {
        b'>' => matches!(first, b'-' | b'<'),
        b'=' => matches!(first, b'=' | b'!' | b'<' | b'>' | b'+'),
        _ => false,
    }
}

fn is_single(byte: u8) -> bool
    ensures { result ≡ is_single byte }
{
    match byte {
        b'=' | b'<' | b'>' | b'+' | b'-' | b'*' | b'/' | b'%' => true,
        b'(' | b')' | b'{' | b'}' | b'[' | b']' => true,
        b',' | b';' | b':' | b'.' | b'|' | b'\'' | b'$' => true,
        _ => false,
    }
}
