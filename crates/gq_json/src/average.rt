// Averages as text, by integer arithmetic alone.
ghost use Rattle.std.specs.Prelude.{◌≡◌, ◌+◌, ◌*◌, ◌/◌, ◌<◌, ◌++◌, ℕ, OnOk};
ghost use Rattle.gq_json.specs.Average.{decimals, fraction_text, sign, trimmed};

use gq_base::OutOfMemory;
use gq_value::Fraction;
use itoa::Buffer;

/// Appends the text of an average to the line.
#[tactic(auto, unfolding(crate::specs::Average::fraction_text))]
pub fn push_fraction(line: &mut Vec<u8>, fraction: Fraction) -> Result<(), OutOfMemory>
    ensures { OnOk result (line.new.items ≡ line.old.items ++ fraction_text fraction) }
{
    let Fraction { sum, count } = fraction;
    if count == 0 {
        line.push(b'0')?;
        return Ok(());
    }
    let size = sum.unsigned_abs();
    let whole = size / count;
    let millionths = millionths_of(size % count, count);
    push_sign(line, sum, whole > 0 || millionths > 0)?;
    line.extend_from_slice(Buffer::new().format(whole).as_bytes())?;
    push_decimals(line, millionths)
}

// Appends the minus sign of a number below 0, if one of its digits isn't a zero.
fn push_sign(line: &mut Vec<u8>, number: i64, some_digit: bool) -> Result<(), OutOfMemory>
    ensures { OnOk result (line.new.items ≡ line.old.items ++ sign number some_digit) }
{
    if number < 0 && some_digit {
        line.push(b'-')?;
    }
    Ok(())
}

// The whole millionths in `rest / count`.
fn millionths_of(rest: u64, count: u64) -> u32
    requires { rest < count }
    ensures value { result ≡ rest * 1000000 / count }
    ensures small { result < 1000000 }
{
    (u128::from(rest) * 1_000_000 / u128::from(count)) as u32
}

// Appends the point and the digits of a number of millionths; nothing for 0.
#[tactic(auto, using(std::proofs::lemmas::Fmt::decimal_nonempty))]
fn push_decimals(line: &mut Vec<u8>, millionths: u32) -> Result<(), OutOfMemory>
    requires { millionths < 1000000 }
    ensures { OnOk result (line.new.items ≡ line.old.items ++ decimals millionths) }
{
    if millionths == 0 {
        return Ok(());
    }
    line.push(b'.')?;
    let mut buffer = Buffer::new();
    let digits = buffer.format(1_000_000 + millionths).as_bytes();
    line.extend_from_slice(trimmed(&digits[1..]))?;
    Ok(())
}

// The digits without trailing zeros.
#[tactic(auto, using(crate::proofs::TrimmedLemmas::trims))]
fn trimmed(digits: &[u8]) -> &[u8]
    ensures { result.now ≡ trimmed digits.now }
{
    let mut end = digits.len();
    while end > 0 && digits[end - 1] == b'0' {
        end -= 1;
    }
    &digits[..end]
}
