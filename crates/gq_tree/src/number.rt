// Numbers with a sign.
ghost use Rattle.std.specs.Prelude.{◌≡◌};
ghost use Rattle.gq_tree.specs.Signed as spec;

/// The number of a `Literal` or an `Argument`, with its sign.
pub fn signed(minus: bool, number: u64) -> i128
    ensures { result ≡ spec.signed minus number }
{
    if minus {
        -i128::from(number)
    } else {
        i128::from(number)
    }
}
