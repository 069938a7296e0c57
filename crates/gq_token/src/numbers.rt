// Numbers.
ghost use Rattle.std.specs.Prelude.{◌≡◌, ◌<◌, ◌^◌, true, length, slice_index, IfOk, IfErr};
ghost use Rattle.std.specs.Option.{SomeIff};
ghost use Rattle.gq_token.specs.Bytes.{is_digit, number_of};
ghost use Rattle.gq_token.specs.Items.{IsItem, item_with, FaultHere};

use crate::class::{ByteRun, run_size};
use crate::fault::LexFault;
use crate::item::LexItem;
use crate::token::TokenKind;

// Cuts the number with which the bytes begin. The first byte is at the place `at` of the script.
pub fn number(rest: &[u8], at: usize) -> Result<LexItem, LexFault>
    requires some { 0 < length rest.now }
    requires digit { is_digit (slice_index rest.now 0) ≡ true }
    ensures item { IfOk result (λ item. IsItem rest.now item.size (item_with item.shape)) }
    ensures fault { IfErr result (λ fault. FaultHere rest.now at fault) }
{
    let size = run_size(rest, ByteRun::Digit);
    match value(&rest[..size]) {
        Some(number) => Ok(LexItem {
            size,
            shape: Some(TokenKind::Number(number)),
        }),
        None => Err(LexFault::TooBig { at }),
    }
}

// The number that decimal digits write, if it has at most 64 bits.
fn value(digits: &[u8]) -> Option<u64>
    ensures { SomeIff result (number_of digits.now < 2 ^ 64) (number_of digits.now) }
{
    let mut number = 0u64;
    for digit in digits {
        let tens = match number.checked_mul(10) {
            Some(tens) => tens,
            None => return None,
        };
        match tens.checked_add(u64::from(digit.saturating_sub(b'0'))) {
            Some(sum) => number = sum,
            None => return None,
        }
    }
    Some(number)
}
