// Numbers as texts.
ghost use Rattle.std.specs.Prelude.{◌≡◌, IfOk};
ghost use Rattle.std.specs.Fmt.{decimal, signed_decimal};

use gq_base::OutOfMemory;
use gq_value::Txt;
use itoa::Buffer;
use std::alloc::Global;

/// The decimal digits of an INT, with a minus sign if it is below 0.
pub fn signed_decimal(alloc: Global, x: i64) -> Result<Txt, OutOfMemory>
    ensures { IfOk result (λ text. text ≡ signed_decimal x) }
{
    Txt::of(alloc, Buffer::new().format(x))
}

/// The decimal digits of a UINT.
pub fn decimal(alloc: Global, n: u64) -> Result<Txt, OutOfMemory>
    ensures { IfOk result (λ text. text ≡ decimal n) }
{
    Txt::of(alloc, Buffer::new().format(n))
}
