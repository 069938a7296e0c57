// Faults of a run.
ghost use Rattle.std.specs.Prelude.{◌≡◌};
ghost use Rattle.gq_exec_control.specs.Faults.{fault_of, fault_of_block, faults_of};

use crate::running::RunFault;
use gq_eval_context::BlockFault;
use gq_eval_operand::Halt;

/// Converts the fault of an evaluation to that of a run.
pub fn or_fault<T>(told: Result<T, Halt>) -> Result<T, RunFault>
    ensures { result ≡ faults_of told }
{
    match told {
        Ok(answer) => Ok(answer),
        Err(halt) => Err(run_fault(halt)),
    }
}

/// Returns the fault of a run for the end of an evaluation.
pub fn run_fault(halt: Halt) -> RunFault
    ensures { result ≡ fault_of halt }
{
    match halt {
        Halt::Wrong(fault) => RunFault::Eval(fault),
        Halt::Stuck => RunFault::Stuck,
        Halt::OutOfMemory => RunFault::OutOfMemory,
    }
}

/// Returns the fault of a run for that of a block; the place within the block is dropped.
pub fn block_fault(fault: BlockFault) -> RunFault
    ensures { result ≡ fault_of_block fault }
{
    match fault {
        BlockFault::Eval { at: _, fault } => RunFault::Eval(fault),
        BlockFault::SumRange { slot } => RunFault::SumRange(slot),
        BlockFault::Stuck => RunFault::Stuck,
        BlockFault::OutOfMemory => RunFault::OutOfMemory,
    }
}
