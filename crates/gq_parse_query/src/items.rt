// What was read, of any type, followed by a sign or appended to a list. Statements are large, and are passed through
// here unchanged.
ghost use Rattle.std.specs.Prelude.{ℕ, IfOk};
ghost use Rattle.gq_grammar.specs.Lexemes.{Sign};
ghost use Rattle.gq_grammar.specs.Parsers.{Parser, Found};
ghost use Rattle.gq_grammar.specs.Series.{ended};
ghost use Rattle.gq_parse_query.specs.Items.{EndsWithin, Keeps};

use gq_base::OutOfMemory;
use gq_expr_read::Read;
use gq_grammar::Source;
use gq_parse_common::need;

/// Returns what was read, if the sign follows it, with the place after the sign.
pub fn closed<T: Drop>(source: &Source<'_>, read: Read<T>, sign: &str) -> Read<T>
    requires { EndsWithin source.now read }
    ensures { (p : Parser T) (at : ℕ) → IfOk read (Found p source.now at) → IfOk result (Found (ended (Sign sign.now) p) source.now at) }
{
    match read? {
        None => Ok(None),
        Some((item, at)) => match source.sign(at, sign) {
            None => Ok(None),
            Some(next) => Ok(Some((item, next))),
        },
    }
}

/// Appends what was read to the list, and returns where it ended.
pub fn keep<T: Drop>(found: &mut Vec<T>, read: Read<T>) -> Result<Option<usize>, OutOfMemory>
    ensures { IfOk result (Keeps found.old.items found.new.items read) }
{
    let (item, next) = need!(read?);
    found.push(item)?;
    Ok(Some(next))
}
