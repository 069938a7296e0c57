// Laws of a block as a job for workers.
ghost use Rattle.gq_workers.specs.JobLaws.{JobLaw};

/// Does nothing. Its contract is a law: the contributions of a block's chunks to a target, in order, are those of the
/// block, so that they lead to the block's content.
#[tactic(auto, using(crate::proofs::JobLemmas::job_law))]
pub fn chunks_make_the_block()
    ensures { JobLaw }
{}
