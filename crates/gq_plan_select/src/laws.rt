// Laws about blocks of plans.
ghost use Rattle.gq_plan_select.specs.Laws.{ChangeLaw, BlockLaw};

/// Does nothing. Its contract is a law: the plan of a change is the query's change with references in place of names.
#[tactic(auto, using(crate::proofs::BlockLaws::change_law))]
pub fn what_is_changed_is_the_query()
    ensures { ChangeLaw }
{}

/// Does nothing. Its contract is a law: the plan of a SELECT is the query's SELECT with references in place of names.
#[tactic(auto, using(crate::proofs::BlockLaws::block_law))]
pub fn what_is_selected_is_the_query()
    ensures { BlockLaw }
{}
