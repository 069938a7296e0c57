// Laws about plans of expressions.
ghost use Rattle.gq_plan_expr.specs.Laws.{PlanLaw, SettledLaw, TypedLaw};

/// Does nothing. Its contract is a law: the planned expression is the query's with references in place of names.
#[tactic(auto, using(crate::proofs::PlanLaws::plan_law))]
pub fn what_is_planned_is_the_query()
    ensures { PlanLaw }
{}

/// Does nothing. Its contract is a law: the precomputed data in the expression of a plan is consistent.
#[tactic(auto, using(crate::proofs::SettledLaws::settled_law))]
pub fn what_is_kept_is_right()
    ensures { SettledLaw }
{}

/// Does nothing. Its contract is a law: a well typed expression has a plan, if all names that it may use are found.
pub fn what_is_typed_has_a_plan()
    ensures { TypedLaw }
{}
