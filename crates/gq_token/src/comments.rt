// Comments between `/*` and `*/`.
ghost use Rattle.std.specs.Prelude.{◌≡◌, ◌<◌, length, slice_index, IfOk, IfErr, IfSome, IfNone};
ghost use Rattle.gq_token.specs.Class.{class_of};
ghost use Rattle.gq_token.specs.declared.class.Class.TheVariants.{BlockComment};
ghost use Rattle.gq_token.specs.Spelling.{ends_at_close};
ghost use Rattle.gq_token.specs.Items.{IsItem, item_with, FaultHere, EndsAt, NeverEnds};

use crate::class::byte_at;
use crate::fault::LexFault;
use crate::item::LexItem;

// Cuts the comment with which the bytes begin. The first byte is at the place `at` of the script.
pub fn block_comment(rest: &[u8], at: usize) -> Result<LexItem, LexFault>
    requires some { 0 < length rest.now }
    requires opens { class_of (slice_index rest.now 0) (slice_index rest.now 1) ≡ BlockComment }
    ensures item { IfOk result (λ item. IsItem rest.now item.size (item_with item.shape)) }
    ensures fault { IfErr result (λ fault. FaultHere rest.now at fault) }
{
    match end(&rest[2..]) {
        Some(size) => Ok(LexItem {
            size: 2 + size,
            shape: None,
        }),
        None => Err(LexFault::OpenComment { at }),
    }
}

// The number of bytes after a `/*` up to the end of the first `*/`.
fn end(behind: &[u8]) -> Option<usize>
    ensures some { IfSome result (λ size. EndsAt ends_at_close behind.now size) }
    ensures none { IfNone result (NeverEnds ends_at_close behind.now) }
{
    let mut at = 0;
    while at < behind.len() {
        if behind[at] == b'*' && byte_at(behind, at + 1) == b'/' {
            return Some(at + 2);
        }
        at += 1;
    }
    None
}
