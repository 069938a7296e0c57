// The next item of a script, whose first two bytes determine its kind.
ghost use Rattle.std.specs.Prelude.{◌≡◌, ◌+◌, ◌<◌, ◌^◌, length, slice_index, IfOk, IfErr};
ghost use Rattle.std.specs.Str.{IsUtf8};
ghost use Rattle.gq_token.specs.Items.{IsItem, item_with, FaultHere};

use crate::class::{ByteRun, Class, byte_at, class_of, run_size};
use crate::comments::block_comment;
use crate::fault::LexFault;
use crate::numbers::number;
use crate::symbols::symbol;
use crate::texts::text;
use crate::token::TokenKind;
use crate::words::sign_word;
use std::alloc::Global;

// An item: its length in bytes, and its shape, unless it is a gap.
#[derive(Drop)]
pub struct LexItem {
    pub size: usize,
    pub shape: Option<TokenKind>,
}

// Cuts the item with which the bytes begin. The first byte is at the place `at` of the script.
pub fn next_item(alloc: Global, rest: &[u8], at: usize) -> Result<LexItem, LexFault>
    requires some { 0 < length rest.now }
    requires place { at + length rest.now < 2 ^ 64 }
    requires utf8 { slice_index rest.now 0 ≡ 34 → IsUtf8 rest.now }
    ensures item { IfOk result (λ item. IsItem rest.now item.size (item_with item.shape)) }
    ensures fault { IfErr result (λ fault. FaultHere rest.now at fault) }
{
    match class_of(rest[0], byte_at(rest, 1)) {
        Class::Blank => Ok(LexItem {
            size: run_size(rest, ByteRun::Blank),
            shape: None,
        }),
        Class::LineComment => Ok(LexItem {
            size: run_size(rest, ByteRun::Line),
            shape: None,
        }),
        Class::BlockComment => block_comment(rest, at),
        Class::Word => Ok(LexItem {
            size: run_size(rest, ByteRun::Word),
            shape: Some(TokenKind::Word),
        }),
        Class::Sign => sign_word(rest, at),
        Class::Number => number(rest, at),
        Class::Text => text(alloc, rest, at),
        Class::Other => symbol(rest, at),
    }
}
