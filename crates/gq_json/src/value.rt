// Printed values.
ghost use Rattle.std.specs.Prelude.{◌≡◌, [], ◌∷◌, ◌++◌, OnOk, map};
ghost use Rattle.gq_json.specs.Json.{comma_before, list_text, out_text, printed_text, quoted};

use crate::average::push_fraction;
use crate::out::Out;
use crate::text::push_quoted;
use gq_base::OutOfMemory;
use gq_value::Txt;
use itoa::Buffer;

#[cycle(values)]
#[tactic(auto, using(crate::proofs::OutLemmas::out_laws))]
fn push_value(line: &mut Vec<u8>, value: &Out) -> Result<(), OutOfMemory>
    ensures { OnOk result (line.new.items ≡ line.old.items ++ out_text value.now) }
{
    match value {
        Out::Int(z) => line.extend_from_slice(Buffer::new().format(*z).as_bytes())?,
        Out::UInt(n) => line.extend_from_slice(Buffer::new().format(*n).as_bytes())?,
        Out::Bool(true) => line.extend_from_slice(b"true")?,
        Out::Bool(false) => line.extend_from_slice(b"false")?,
        Out::Text(text) => push_quoted(line, text.as_str())?,
        Out::Fraction(fraction) => push_fraction(line, *fraction)?,
        Out::List(values) => push_values(line, values.as_slice())?,
        Out::Object(members) => push_members(line, members.as_slice())?,
    }
    Ok(())
}

#[cycle(values)]
fn push_values(line: &mut Vec<u8>, values: &[Out]) -> Result<(), OutOfMemory>
    ensures { OnOk result (line.new.items ≡ line.old.items ++ list_text (map out_text values.now)) }
{
    line.push(b'[')?;
    for (i, value) in values.iter().enumerate() {
        push_comma(line, i)?;
        push_value(line, value)?;
    }
    line.push(b']')?;
    Ok(())
}

/// Appends an object of these members to the line.
#[cycle(values)]
pub fn push_members(line: &mut Vec<u8>, members: &[(Txt, Out)]) -> Result<(), OutOfMemory>
    ensures { OnOk result (line.new.items ≡ line.old.items ++ printed_text members.now) }
{
    line.push(b'{')?;
    for (i, (name, value)) in members.iter().enumerate() {
        push_comma(line, i)?;
        push_name(line, name)?;
        push_value(line, value)?;
    }
    line.push(b'}')?;
    Ok(())
}

// Appends a name and its colon.
fn push_name(line: &mut Vec<u8>, name: &Txt) -> Result<(), OutOfMemory>
    ensures { OnOk result (line.new.items ≡ line.old.items ++ (quoted name.now ++ 58 ∷ [])) }
{
    push_quoted(line, name.as_str())?;
    line.push(b':')?;
    Ok(())
}

/// Appends the comma before the item at a place; the first has none.
pub fn push_comma(line: &mut Vec<u8>, place: usize) -> Result<(), OutOfMemory>
    ensures { OnOk result (line.new.items ≡ line.old.items ++ comma_before place) }
{
    if place > 0 {
        line.push(b',')?;
    }
    Ok(())
}
