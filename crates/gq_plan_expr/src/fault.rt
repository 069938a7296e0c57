// Why there is no plan.
use gq_base::OutOfMemory;
use thiserror::Error;

/// Why an expression has no plan.
#[derive(Clone, Copy, Debug, PartialEq, Eq, Error)]
pub enum PlanFault {
    /// Something isn't found, or `outdegree` has arguments other than a text. This doesn't happen in a well typed
    /// query.
    #[error("unknown name")]
    Unknown,
    #[error("out of memory")]
    OutOfMemory,
}

impl From<OutOfMemory> for PlanFault {
    ghost use Rattle.std.specs.Prelude.{◌≡◌};
    ghost use Rattle.gq_plan_expr.specs.declared.fault.PlanFault.TheVariants.{OutOfMemory};

    ghost from_gives = { λ _ e. e ≡ OutOfMemory };

    fn from(_: OutOfMemory) -> Self {
        PlanFault::OutOfMemory
    }
}
