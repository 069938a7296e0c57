// Quoted texts.
ghost use Rattle.std.specs.Prelude.{◌≡◌, ◌+◌, ◌<◌, ◌≤◌, ◌^◌, true, length, slice_index, Some, IfOk, IfErr, IfSome, IfNone};
ghost use Rattle.std.specs.Str.{IsUtf8};
ghost use Rattle.gq_token.specs.Texts.{closes, said, escape_of};
ghost use Rattle.gq_token.specs.Items.{IsItem, item_with, FaultHere, BodyFault, EndsAt, NeverEnds};

use crate::fault::LexFault;
use crate::item::LexItem;
use crate::token::TokenKind;
use gq_value::Txt;
use std::alloc::Global;

// Cuts the text with which the bytes begin. The first byte is at the place `at` of the script.
pub fn text(alloc: Global, rest: &[u8], at: usize) -> Result<LexItem, LexFault>
    requires some { 0 < length rest.now }
    requires quote { slice_index rest.now 0 ≡ 34 }
    requires place { at + length rest.now < 2 ^ 64 }
    requires utf8 { IsUtf8 rest.now }
    ensures item { IfOk result (λ item. IsItem rest.now item.size (item_with item.shape)) }
    ensures fault { IfErr result (λ fault. FaultHere rest.now at fault) }
{
    let behind = &rest[1..];
    let size = match body_size(behind) {
        Some(size) => size,
        None => return Err(LexFault::OpenText { at }),
    };
    match resolved(alloc, &behind[..size], at + 1) {
        Ok(text) => Ok(LexItem {
            size: 1 + size,
            shape: Some(TokenKind::Text(text)),
        }),
        Err(fault) => Err(fault),
    }
}

// The length of a text after its opening quote, including the closing quote.
fn body_size(behind: &[u8]) -> Option<usize>
    ensures some { IfSome result (λ size. EndsAt closes behind.now size) }
    ensures none { IfNone result (NeverEnds closes behind.now) }
{
    let mut at = 0;
    while at < behind.len() {
        match behind[at] {
            b'"' => return Some(at + 1),
            b'\\' => at += 2,
            _ => at += 1,
        }
    }
    None
}

// The value of a text up to the closing quote. The first byte is at the place `at` of the script.
fn resolved(alloc: Global, body: &[u8], at: usize) -> Result<Txt, LexFault>
    requires closed { closes body.now ≡ true }
    requires place { at + length body.now < 2 ^ 64 }
    requires utf8 { IsUtf8 body.now }
    ensures text { IfOk result (λ text. said body.now ≡ Some text) }
    ensures fault { IfErr result (λ fault. BodyFault body.now at fault) }
{
    let mut bytes = Vec::new(alloc);
    let mut next = 0;
    while next + 1 < body.len() {
        let byte = body[next];
        if byte == b'\\' {
            match escape_of(body[next + 1]) {
                Some(meant) => bytes.push(meant)?,
                None => return Err(LexFault::BadToken { at: at + next }),
            }
            next += 2;
        } else {
            bytes.push(byte)?;
            next += 1;
        }
    }
    match String::from_utf8(bytes) {
        Ok(text) => Ok(Txt::from_string(text)),
        Err(_) => unreachable!(),
    }
}

// The byte that a backslash and this byte mean.
fn escape_of(byte: u8) -> Option<u8>
    ensures { result ≡ escape_of byte }
{
    match byte {
        b'"' | b'\\' => Some(byte),
        b'n' => Some(b'\n'),
        b't' => Some(b'\t'),
        b'r' => Some(b'\r'),
        _ => None,
    }
}
