// Quoted texts.
ghost use Rattle.std.specs.Prelude.{◌≡◌, ◌<◌, ◌++◌, OnOk};
ghost use Rattle.gq_json.specs.Json.{hex_digit, escaped, quoted};

use gq_base::OutOfMemory;

/// Appends the quoted text to the line.
pub fn push_quoted(line: &mut Vec<u8>, text: &str) -> Result<(), OutOfMemory>
    ensures { OnOk result (line.new.items ≡ line.old.items ++ quoted text.now) }
{
    line.push(b'"')?;
    for byte in text.as_bytes() {
        push_escaped(line, *byte)?;
    }
    line.push(b'"')?;
    Ok(())
}

fn push_escaped(line: &mut Vec<u8>, byte: u8) -> Result<(), OutOfMemory>
    ensures { OnOk result (line.new.items ≡ line.old.items ++ escaped byte) }
{
    match byte {
        b'"' => line.extend_from_slice(b"\\\"")?,
        b'\\' => line.extend_from_slice(b"\\\\")?,
        8 => line.extend_from_slice(b"\\b")?,
        9 => line.extend_from_slice(b"\\t")?,
        10 => line.extend_from_slice(b"\\n")?,
        12 => line.extend_from_slice(b"\\f")?,
        13 => line.extend_from_slice(b"\\r")?,
        0..=31 => {
            line.extend_from_slice(b"\\u00")?;
            line.push(hex_digit(byte / 16))?;
            line.push(hex_digit(byte % 16))?;
        }
        _ => line.push(byte)?,
    }
    Ok(())
}

fn hex_digit(n: u8) -> u8
    requires { n < 16 }
    ensures { result ≡ hex_digit n }
{
    if n < 10 { b'0' + n } else { b'a' - 10 + n }
}
