// Whole lines. Each is written into one growable buffer.
ghost use Rattle.std.specs.Prelude.{◌≡◌, IfOk, map};
ghost use Rattle.gq_json.specs.Json.{line_text, error_text};

use crate::out::Printed;
use crate::text::push_quoted;
use crate::value::{push_comma, push_members};
use gq_base::OutOfMemory;
use std::alloc::Global;

/// Returns the line of a query that printed these objects, with its line feed.
pub fn json_line(alloc: Global, printed: &[Printed]) -> Result<Vec<u8>, OutOfMemory>
    ensures { IfOk result (λ line. line.items ≡ line_text (map (λ object. object.members) printed.now)) }
{
    let mut line = Vec::from_slice(alloc, b"{\"error\":false,\"message\":\"\",\"results\":[")?;
    for (i, object) in printed.iter().enumerate() {
        push_comma(&mut line, i)?;
        push_members(&mut line, object.members.as_slice())?;
    }
    line.extend_from_slice(b"]}\n")?;
    Ok(line)
}

/// Returns the line of a refusal with this message, with its line feed.
pub fn error_line(alloc: Global, message: &str) -> Result<Vec<u8>, OutOfMemory>
    ensures { IfOk result (λ line. line.items ≡ error_text message.now) }
{
    let mut line = Vec::from_slice(alloc, b"{\"error\":true,\"message\":")?;
    push_quoted(&mut line, message)?;
    line.extend_from_slice(b"}\n")?;
    Ok(line)
}
