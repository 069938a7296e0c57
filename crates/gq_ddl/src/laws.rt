// Laws of jobs while their catalog grows.
ghost use Rattle.std.specs.Prelude.{List};
ghost use Rattle.gq_graph.specs.Catalog.{Schema};
ghost use Rattle.gq_load_check.specs.Fits.{HasGrown};
ghost use Rattle.gq_ddl.specs.declared.named.NamedJob.{NamedJob};
ghost use Rattle.gq_ddl.specs.Fitting.{JobsFit};

/// States that jobs that were checked for a catalog are valid for each catalog into which it has grown.
#[tactic(auto, using(crate::specs::FittingLaws::jobs_stay))]
pub fn jobs_stay_checked()
    ensures { (before after : Schema) (jobs : List NamedJob) → HasGrown before after → JobsFit before jobs → JobsFit after jobs }
{}
