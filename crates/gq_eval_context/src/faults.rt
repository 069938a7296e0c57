// Faults.
ghost use Rattle.std.specs.Prelude.{◌≡◌};
ghost use Rattle.gq_eval_context.specs.Faults.{fault_at};

use crate::after::BlockFault;
use gq_eval_operand::Halt;

/// The fault of a block whose evaluation at a vertex has ended.
pub fn fault_at(vertex: u32, halt: Halt) -> BlockFault
    ensures { result ≡ fault_at vertex halt }
{
    match halt {
        Halt::Wrong(fault) => BlockFault::Eval {
            at: u64::from(vertex),
            fault,
        },
        Halt::Stuck => BlockFault::Stuck,
        Halt::OutOfMemory => BlockFault::OutOfMemory,
    }
}
