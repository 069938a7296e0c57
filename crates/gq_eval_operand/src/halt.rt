// Why an evaluation ends without a value.
use gq_base::OutOfMemory;
use gq_value::Wrong;

/// Why an evaluation ends without a value.
#[derive(Clone, Copy, Debug, PartialEq, Eq)]
pub enum Halt {
    /// An operation has no value.
    Wrong(Wrong),

    /// Something named is missing or has a wrong type; never so for a well typed expression.
    Stuck,

    OutOfMemory,
}

impl From<OutOfMemory> for Halt {
    ghost use Rattle.std.specs.Prelude.{◌≡◌};
    ghost use Rattle.gq_eval_operand.specs.declared.halt.Halt.TheVariants.{OutOfMemory};

    ghost from_gives = { λ _ e. e ≡ OutOfMemory };

    fn from(_: OutOfMemory) -> Self {
        Halt::OutOfMemory
    }
}
