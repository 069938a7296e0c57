// Laws about plans.
ghost use Rattle.gq_plan.specs.Prints.{PrintLaw};
ghost use Rattle.gq_plan.specs.Safe.{SafeLaw};

/// Does nothing. Its contract is a law: a plan of a query prints what the query prints, or ends with its fault.
pub fn a_plan_prints_what_its_query_prints()
    ensures { PrintLaw }
{}

/// Does nothing. Its contract is a law: a plan of a typed query never gets stuck, over a store and arguments that fit.
pub fn a_plan_of_a_typed_query_is_never_stuck()
    ensures { SafeLaw }
{}
