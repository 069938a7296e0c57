// Laws about runs of jobs.
ghost use Rattle.std.specs.Prelude.{◌≡◌, List};
ghost use Rattle.gq_io.specs.Listing.{Listing};
ghost use Rattle.gq_graph.specs.Catalog.{Schema};
ghost use Rattle.gq_tree.specs.declared.job.RunJobTree.{RunJobTree};
ghost use Rattle.gq_index.specs.declared.store.Store.{Store};
ghost use Rattle.gq_io.specs.Known.{Told};
ghost use Rattle.gq_diagnostics.specs.Effects.{Effect};
ghost use Rattle.gq_ddl.specs.declared.named.NamedJob.{NamedJob};
ghost use Rattle.gq_load_run.specs.JobRuns.{JobDoes};

/// If the listing of the files is given, a run of a job has exactly one effect.
pub fn jobs_do_one_thing()
    ensures { (pairs : Listing) (schema : Schema) (jobs : List NamedJob) (store : Store) (tree : RunJobTree) (e f : Effect Store)
        → JobDoes (Told pairs) schema jobs store tree e → JobDoes (Told pairs) schema jobs store tree f → e ≡ f }
{}
