// Laws about command lines.
ghost use Rattle.std.specs.Prelude.{◌≡◌, ℕ, List};
ghost use Rattle.gq_io.specs.Listing.{Listing};
ghost use Rattle.gq_io.specs.Known.{Told};
ghost use Rattle.gq_diagnostics.specs.Outcome.{Outcome};
ghost use Rattle.gq_driver.specs.CommandLine.{Means};

use gq_stmt_read::one_script;

/// Only calls a law of scripts. Its contract is a law: if the listing of the files is given, each command line means
/// exactly one outcome: its lines and its status. So `run`, which keeps to each outcome that the command line means,
/// keeps to one. A query that is stuck has no effect, and a script with one has no outcome: there is none.
pub fn one_outcome()
    ensures exists { (pairs : Listing) (words : List (List ℕ)) → (outcome : Outcome) × Means (Told pairs) words outcome }
    ensures unique { (pairs : Listing) (words : List (List ℕ)) (outcome other : Outcome) → Means (Told pairs) words outcome → Means (Told pairs) words other → outcome ≡ other }
{
    one_script();
}
