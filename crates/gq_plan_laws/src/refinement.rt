// References in place of names: laws.
ghost use Rattle.gq_rules_typing.specs.Statements.{Bytes, KindTree};
ghost use Rattle.gq_plan_ir.specs.Reference.{Reference};
ghost use Rattle.gq_plan_laws.specs.RefinementLaws.{StatementLaw, QueryLaw};

/// Statements with references do the same as the statements with names that they represent.
#[tactic(auto, using(crate::proofs::RunLaws::statement_law))]
pub fn references_run_as_names_do()
    ensures { StatementLaw Bytes Reference }
{}

/// A plan prints what the query that it represents prints, or ends with the same fault.
#[tactic(auto, using(crate::proofs::QueryLaws::query_law))]
pub fn a_plan_runs_as_its_query_does()
    ensures { QueryLaw Bytes Reference (KindTree Bytes) }
{}
