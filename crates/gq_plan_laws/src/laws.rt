// A law of typed statements.
ghost use Rattle.gq_plan_laws.specs.Laws.{StatementsLaw};

/// Does nothing. Its contract is a law: well-typed statements have a plan, after which names are shown as typing has
/// them.
#[tactic(auto, using(crate::proofs::StepHas::statements_law))]
pub fn typed_statements_have_a_plan()
    ensures { StatementsLaw }
{}
