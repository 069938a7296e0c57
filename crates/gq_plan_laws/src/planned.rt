// When a plan is made of a query, and the law that it then prints what the query prints.
ghost use Rattle.gq_plan_laws.specs.PlannedLaws.{PlanLaw};

/// A plan that is made of a query represents it, over every graph of its types.
pub fn what_is_planned_is_the_query()
    ensures { PlanLaw }
{}
