// Laws about statements.
ghost use Rattle.std.specs.Prelude.{◌≡◌};
ghost use Rattle.gq_io.specs.Known.{Told};
ghost use Rattle.gq_io.specs.Listing.{Listing};
ghost use Rattle.gq_tree.specs.declared.statement.Statement.{Statement};
ghost use Rattle.gq_diagnostics.specs.Effects.{Effect};
ghost use Rattle.gq_session.specs.Statements.{Does, State};
ghost use Rattle.gq_session.specs.Safe.{OpeningLaw, NextLaw, RunLaw, InterpretLaw};

/// Does nothing. Its contract is a law: if the listing of the files is given, a statement has exactly one effect.
pub fn statements_do_one_thing()
    ensures { (pairs : Listing) (s : State) (statement : Statement) (e f : Effect State)
        → Does (Told pairs) s statement e → Does (Told pairs) s statement f → e ≡ f }
{}

/// Does nothing. Its contract is a law: no query of a session is stuck. A session begins safe, each statement leaves it
/// safe, and a safe session refuses RUN QUERY and INTERPRET QUERY only with words.
pub fn no_session_is_stuck()
    ensures first { OpeningLaw }
    ensures next { NextLaw }
    ensures run { RunLaw }
    ensures interpret { InterpretLaw }
{}
