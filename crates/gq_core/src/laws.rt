// Laws of every run.
ghost use Rattle.std.specs.Prelude.{◌≡◌, ◌≢◌, ℕ, ◌+◌, ◌%◌, ◌<◌, ◌≤◌, List, length, slice_get, Some};
ghost use Rattle.std.specs.List.Sorted.{IsPermutation};
ghost use Rattle.gq_core.specs.declared.job.FeedJob.{FeedJob};
ghost use Rattle.gq_core.specs.declared.worker.Worker.{Worker};
ghost use Rattle.gq_core.specs.declared.event.Event.{Event};
ghost use Rattle.gq_core.specs.Machine.{Machine, run, opening, stripe_at};
ghost use Rattle.gq_core.specs.Accounts.{IsInOrder, times, ticket_of};
ghost use Rattle.gq_core.specs.Contents.{IsFinished, IsShuffled, HasAll, put_times, inputs_to, all_of};

/// Does nothing. Its contract is a law of every job and every list of events: the accounts are kept, and once each chunk
/// was drawn and no worker holds one, each chunk was put once at each stripe, and each target's inputs are in its stripe.
pub fn any_events()
    ensures order { (job : FeedJob) (events : List Event) → IsInOrder job (run job (opening job) events) }
    ensures once { (job : FeedJob) (events : List Event) → let m = run job (opening job) events in IsFinished job m →
        (chunk stripe : ℕ) → chunk < length job.chunks → stripe < job.stripes → put_times m chunk stripe ≡ 1 }
    ensures shuffled { (job : FeedJob) (events : List Event) → let m = run job (opening job) events in IsFinished job m →
        (stripe : ℕ) → stripe < job.stripes → IsShuffled job m stripe }
    ensures contents { (job : FeedJob) (events : List Event) → let m = run job (opening job) events in IsFinished job m →
        (target : ℕ) → IsPermutation (inputs_to target (all_of job.chunks)) (inputs_to target (stripe_at m (target % job.stripes)).inputs) }
{}

/// Does nothing. Its contract states what the accounts imply: no two workers draw the same chunk or hold the same
/// ticket of a stripe, and no chunk is in a stripe's book twice.
pub fn once_at_most()
    ensures drawn { (job : FeedJob) (m : Machine) → IsInOrder job m → (w x : ℕ) (v u : Worker) → x ≢ w → slice_get m.workers w ≡ Some v → slice_get m.workers x ≡ Some u →
        (chunk : ℕ) → times chunk v.draws + times chunk u.draws ≤ 1 }
    ensures held { (job : FeedJob) (m : Machine) → IsInOrder job m → (w x : ℕ) (v u : Worker) → x ≢ w → slice_get m.workers w ≡ Some v → slice_get m.workers x ≡ Some u →
        (stripe number : ℕ) → stripe < job.stripes → ticket_of stripe number v.phase + ticket_of stripe number u.phase ≤ 1 }
    ensures laid { (job : FeedJob) (m : Machine) → IsInOrder job m → (stripe chunk : ℕ) → stripe < job.stripes → times chunk (stripe_at m stripe).book ≤ 1 }
{}

/// Does nothing. Its contract is a law of every job and every list of events: once each chunk was drawn and no worker
/// holds one, each target's content is the one that a single worker would compute, whatever the order of the events.
pub fn one_content()
    ensures { (job : FeedJob) (events : List Event) → let m = run job (opening job) events in IsFinished job m → (target : ℕ) → HasAll job m target }
{}
