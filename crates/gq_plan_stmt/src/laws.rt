// Laws about statements of plans.
ghost use Rattle.gq_plan_stmt.specs.Laws.{StepsLaw};

/// Does nothing. Its contract is a law: the planned statements represent those of the query.
pub fn what_is_planned_stands_for_it()
    ensures { StepsLaw }
{}
