// Reasons why a file isn't loaded.
use gq_base::OutOfMemory;
use gq_graph::StoreFault;
use gq_value::Txt;
use thiserror::Error;

/// Why a file isn't loaded, or not completely.
#[derive(Debug, Drop, Error)]
pub enum LoadFault {
    /// A column has this name, but the file's header lacks it, or the file has no header.
    #[error("no such column")]
    NoColumn(Txt),
    /// A row's name is new, and its table is full.
    #[error("store full")]
    Full,
    #[error("out of memory")]
    OutOfMemory,
}

impl From<OutOfMemory> for LoadFault {
    ghost use Rattle.std.specs.Prelude.{◌≡◌};
    ghost use Rattle.gq_load.specs.declared.fault.LoadFault.TheVariants.{OutOfMemory};

    ghost from_gives = { λ _ e. e ≡ OutOfMemory };

    fn from(_: OutOfMemory) -> Self {
        LoadFault::OutOfMemory
    }
}

impl From<StoreFault> for LoadFault {
    fn from(fault: StoreFault) -> Self {
        match fault {
            StoreFault::Full => LoadFault::Full,
            StoreFault::OutOfMemory => LoadFault::OutOfMemory,
        }
    }
}
