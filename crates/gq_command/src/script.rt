// The script.
ghost use Rattle.std.specs.Prelude.{◌≡◌, IfOk};
ghost use Rattle.gq_command.specs.Script.{script_text};

use gq_base::OutOfMemory;
use std::alloc::Global;

const SCHEMA: &[u8] =
    b"CREATE VERTEX person (PRIMARY_ID id STRING, age INT)\nCREATE DIRECTED EDGE knows (FROM person, TO person, w INT)\nCREATE GRAPH sample (person, knows)\n";

const JOB: &[u8] =
    b"CREATE LOADING JOB fill FOR GRAPH sample {\n  LOAD \"people.csv\" TO VERTEX person VALUES ($\"id\", $\"age\") USING HEADER=\"true\";\n  LOAD \"knows.csv\" TO EDGE knows VALUES ($\"from\", $\"to\", $\"w\") USING HEADER=\"true\";\n}\nRUN LOADING JOB fill\n";

const QUERY: &[u8] =
    b"INTERPRET QUERY () FOR GRAPH sample {\n  SumAccum<INT> @got, @@total;\n  MaxAccum<INT> @@top;\n  S = {person.*};\n  T = SELECT t FROM S:s -(knows:e)-> person:t\n      ACCUM t.@got += e.w, @@total += e.w\n      POST-ACCUM @@top += t.@got;\n  PRINT S.size() AS people, T.size() AS reached, @@total AS total, @@top AS top;\n}\n";

/// Returns the script that loads the two files of `n` people and prints a line of sums over them; it is the same for
/// each `n`.
pub fn sample_script(alloc: Global, _n: u32) -> Result<Vec<u8>, OutOfMemory>
    ensures { IfOk result (λ script. script.items ≡ script_text) }
{
    let mut script = Vec::from_slice(alloc, SCHEMA)?;
    script.extend_from_slice(JOB)?;
    script.extend_from_slice(QUERY)?;
    Ok(script)
}
