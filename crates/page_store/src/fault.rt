//! Why pages were not settled.

ghost use Rattle.std.specs.Prelude.{◌≡◌};

use store_base::Fault;
use thiserror::Error;

/// Why pages were not settled. `Staged::settle` says what stands then.
#[derive(Clone, Copy, Debug, PartialEq, Eq, Error)]
pub enum SettleFault {
    /// The pages are more than the slots. Nothing was written.
    #[error("{need} pages do not fit {slots} slots")]
    Full {
        /// How many pages there are.
        need: u32,
        /// How many slots there are.
        slots: u32,
    },
    /// The disk failed.
    #[error("the disk failed")]
    Disk,
    /// Memory ran out. Nothing was written.
    #[error("out of memory")]
    NoMemory,
}

impl From<Fault> for SettleFault {
    ghost use Rattle.page_store.specs.Faults.{settle_fault_of};

    ghost from_gives = { λ cause fault. fault ≡ settle_fault_of cause };

    fn from(fault: Fault) -> Self {
        match fault {
            Fault::Disk => SettleFault::Disk,
            Fault::NoMemory => SettleFault::NoMemory,
        }
    }
}
