// Laws of plans.
ghost use Rattle.gq_rules_meaning.specs.TypingStatements.{Bytes};
ghost use Rattle.gq_plan_ir.specs.Reference.{Reference};
ghost use Rattle.gq_plan_ir.specs.Renamed.{RenamedLaw};

/// Does nothing. Its contract is a law: an expression means with references what it means with names, if they show
/// the same.
#[tactic(auto, using(crate::proofs::RenamedLaws::renamed_law))]
pub fn references_mean_what_names_do()
    ensures { RenamedLaw Bytes Reference }
{}
