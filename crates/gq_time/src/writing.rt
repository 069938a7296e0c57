// Texts written.
ghost use Rattle.std.specs.Prelude.{◌≡◌, ◌<◌, ◌∷◌, ◌++◌, ℕ, List, string_bytes, IfOk, OnOk};
ghost use Rattle.gq_time.specs.Moments.{IsDatetime};
ghost use Rattle.gq_time.specs.Texts.{digits, IsWritten};

use crate::moment::moment_of;
use gq_base::OutOfMemory;
use gq_value::Txt;
use std::alloc::Global;

/// The text of a DATETIME, `YYYY-MM-DD HH:MM:SS` with leading zeros.
pub fn write_time(alloc: Global, seconds: i64) -> Result<Txt, OutOfMemory>
    requires { IsDatetime seconds }
    ensures text { IfOk result (IsWritten seconds) }
    ensures only { IfOk result (λ text. (other : List ℕ) → IsWritten seconds other → other ≡ text) }
{
    let moment = moment_of(seconds);
    let year = moment.date.year.unsigned_abs();
    let mut text = String::with_capacity(alloc, 19)?;
    push_two(&mut text, (year / 100) as u8)?;
    push_two(&mut text, (year % 100) as u8)?;
    push_part(&mut text, b'-', moment.date.month)?;
    push_part(&mut text, b'-', moment.date.day)?;
    push_part(&mut text, b' ', moment.time.hour)?;
    push_part(&mut text, b':', moment.time.minute)?;
    push_part(&mut text, b':', moment.time.second)?;
    Ok(Txt::from_string(text))
}

// Appends a mark and a number of two digits to a text.
fn push_part(text: &mut String, mark: u8, number: u8) -> Result<(), OutOfMemory>
    requires mark { mark < 128 }
    requires number { number < 100 }
    ensures { OnOk result (string_bytes text.new ≡ string_bytes text.old ++ mark ∷ digits 2 number) }
{
    text.push(char::from(mark))?;
    push_two(text, number)
}

// Appends a number of two digits to a text.
fn push_two(text: &mut String, number: u8) -> Result<(), OutOfMemory>
    requires { number < 100 }
    ensures { OnOk result (string_bytes text.new ≡ string_bytes text.old ++ digits 2 number) }
{
    text.push(char::from(b'0' + number / 10))?;
    text.push(char::from(b'0' + number % 10))?;
    Ok(())
}
