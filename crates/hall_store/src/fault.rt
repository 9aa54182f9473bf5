//! Why a store refuses.
use hall_policy::SinkFault;
use std::alloc::AllocError;

/// The store refused, or memory did; while the store serves, the world is as it was.
#[derive(Clone, Copy, Debug, PartialEq, Eq)]
pub enum StoreFault {
    /// No memory was left.
    Memory,
    /// The store refused, or a sink did, or what is kept is no world of the hall.
    Failed,
}

impl From<AllocError> for StoreFault {
    ghost use Rattle.std.specs.Prelude.{◌≡◌};
    ghost use Rattle.hall_store.specs.declared.fault.StoreFault.TheVariants.{Memory};

    ghost from_gives = { λ _ e. e ≡ Memory };

    fn from(_: AllocError) -> StoreFault {
        StoreFault::Memory
    }
}

impl From<SinkFault> for StoreFault {
    ghost use Rattle.std.specs.Prelude.{◌≡◌, ◌↔◌};
    ghost use Rattle.hall_policy.specs.declared.sink.SinkFault.TheVariants.{Refused};
    ghost use Rattle.hall_store.specs.declared.fault.StoreFault.TheVariants.{Failed};

    ghost from_gives = { λ fault e. e ≡ Failed ↔ fault ≡ Refused };

    fn from(fault: SinkFault) -> StoreFault {
        match fault {
            SinkFault::Memory => StoreFault::Memory,
            SinkFault::Refused => StoreFault::Failed,
        }
    }
}
